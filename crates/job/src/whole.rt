ghost use Rattle.std.specs.Prelude.{◌≡◌, if◌then◌else◌};
ghost use Rattle.lists.specs.Lent.{pushed};
ghost use Rattle.job.specs.Jobs.{has_place, list_answer, empty_job, stored_answer, stored_job};

use crate::item::Item;
use lists::lent::Lent;
use path::command::Command;
use path::refusal::Reason;
use path::style::Stroke;

const MOST_COMMANDS: usize = 4096;

const MOST_DASHES: usize = 32;

/// What a job says: how to stroke, and a path and dashes in places that the caller lends.
#[derive(Drop)]
pub struct Job<'a> {
    pub style: Stroke,
    pub commands: Lent<'a, Command>,
    pub dashes: Lent<'a, f32>,
}

impl<'a> Job<'a> {
    /// The default style and empty lists.
    pub fn new(commands: &'a mut [Command], dashes: &'a mut [f32]) -> Job<'a>
        ensures { result ≡ empty_job commands.entry dashes.entry }
    {
        Job {
            style: Stroke::default(),
            commands: Lent::new(commands),
            dashes: Lent::new(dashes),
        }
    }

    // Adds what an item says; refused, where its list is full, nothing is altered.
    pub(crate) fn store(&mut self, item: Item) -> Result<(), Reason>
        ensures answer { result ≡ stored_answer self.old item }
        ensures after { self.new ≡ stored_job self.old item }
    {
        match item {
            Item::Width(x) => self.style.width = x,
            Item::Join(join) => self.style.join = join,
            Item::MiterLimit(x) => self.style.miter_limit = x,
            Item::StartCap(shape) => self.style.start_cap = shape,
            Item::EndCap(shape) => self.style.end_cap = shape,
            Item::Offset(x) => self.style.offset = x,
            Item::Dash(x) => return put(&mut self.dashes, x, MOST_DASHES),
            Item::Path(command) => return put(&mut self.commands, command, MOST_COMMANDS),
        }
        Ok(())
    }
}

// One element more in a list that is to hold at most `most`.
fn put<T: Copy>(list: &mut Lent<T>, x: T, most: usize) -> Result<(), Reason>
    ensures answer { result ≡ list_answer (has_place most list.old) }
    ensures after { list.new ≡ (if has_place most list.old then pushed list.old x else list.old) }
{
    if list.len() >= most {
        return Err(Reason::ListFull);
    }
    list.push(x).map_err(|_| Reason::ListFull)
}

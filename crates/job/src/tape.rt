ghost use Rattle.std.specs.Prelude.{◌≡◌, ◌<◌, ◌^◌, length, refl};
ghost use Rattle.job.specs.Decoding.{records, command_of};
ghost use Rattle.job.specs.ReadBack.{ReadsBack, Before, ReadsNext};
ghost use Rattle.job.specs.Tapes.{blank, tape_acts};
ghost use Rattle.job.specs.TapeLaws.{spelling_grows};

use crate::item::Item;
use crate::reader::JobReader;
use crate::writer::write_command;
use lists::lent::front;
use path::command::Command;
use sinks::sink::{ReadableSink, Refused, Sink};
use std::marker::Model;

/// A sink that writes each command as its record of a job, over bytes that the caller lends; the bytes
/// after the records keep what they held.
#[derive(Drop)]
pub struct Tape<'a> {
    bytes: &'a mut [u8],
    count: usize,
}

impl<'a> Model for Tape<'a> {
    ghost use Rattle.std.specs.Prelude.{◌≤◌, length, take};
    ghost use Rattle.job.specs.Decoding.{commands_in, Spells};
    ghost use Rattle.job.specs.Tapes.{Written};

    ghost Value = { Written };

    ghost view = { λ t. record { commands = commands_in (take t.count t.bytes.now); bytes = t.bytes } };

    ghost invariant = { λ t. (t.count ≤ length t.bytes.now) × Spells (take t.count t.bytes.now) };
}

impl<'a> Tape<'a> {
    /// A tape of no commands.
    #[tactic(auto, unfolding(crate::specs::Decoding::decoded))]
    pub fn new(bytes: &'a mut [u8]) -> Tape<'a>
        ensures { result ≡ blank bytes.entry }
    {
        Tape { bytes, count: 0 }
    }

    /// Ends the tape, and hands out the records that it wrote.
    pub fn finish(self) -> &'a [u8]
        ensures value { result.now ≡ records self.entry.commands }
        ensures job { ReadsBack self.entry.commands result }
    {
        let Tape { bytes, count } = self;
        front(bytes, count)
    }

    // At the first record.
    fn reader(&self) -> JobReader<'_>
        ensures before { Before result self.now.commands }
        ensures short { length self.now.commands < 2 ^ 64 }
    {
        JobReader::new(front(self.bytes, self.count))
    }
}

// The next command, none at the end of the records.
fn next_command(reader: &mut JobReader) -> Option<Command>
    ensures { ReadsNext reader.old result reader.new }
{
    match reader.next() {
        Ok(Some(item)) => command_of(item),
        Ok(None) => None,
        Err(_) => None,
    }
}

fn command_of(item: Item) -> Option<Command>
    ensures { result ≡ command_of item }
{
    match item {
        Item::Path(command) => Some(command),
        _ => None,
    }
}

impl<'a> Sink for Tape<'a> {
    ghost acts = { tape_acts };

    ghost kept = { λ w c. refl };

    ghost grows = { spelling_grows };

    fn send(&mut self, c: Command) -> Result<(), Refused> {
        let size = write_command(self.bytes, self.count, c).ok_or(Refused)?;
        self.count += size;
        Ok(())
    }
}

impl<'a> ReadableSink for Tape<'a> {
    fn len(&self) -> usize {
        let mut reader = self.reader();
        let mut n = 0;
        while next_command(&mut reader).is_some() {
            n += 1;
        }
        n
    }

    fn get(&self, i: usize) -> Option<Command> {
        let mut reader = self.reader();
        for _ in 0..i {
            next_command(&mut reader)?;
        }
        next_command(&mut reader)
    }
}

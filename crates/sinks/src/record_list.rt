ghost use Rattle.std.specs.Prelude.{◌≡◌, refl};
ghost use Rattle.lists.specs.Lent.{pushed};
ghost use Rattle.sinks.specs.RecordLaws.{recorded_grows};
ghost use Rattle.sinks.specs.Records.{recorded};

use crate::sink::{ReadableSink, Refused, Sink};
use lists::lent::Lent;
use path::command::Command;

/// A sink that keeps commands as they come, in places that the caller lends, until they are full. It
/// is the lent list itself, so a caller that lets it go knows what its places hold.
pub type RecordList<'a> = Lent<'a, Command>;

impl<'a> Sink for Lent<'a, Command> {
    ghost acts = { record { meaning = recorded; took = pushed } };

    ghost kept = { λ s c. refl };

    ghost grows = { recorded_grows };

    fn send(&mut self, c: Command) -> Result<(), Refused> {
        self.push(c).map_err(|_| Refused)
    }
}

impl<'a> ReadableSink for Lent<'a, Command> {
    fn len(&self) -> usize {
        Lent::len(self)
    }

    fn get(&self, i: usize) -> Option<Command> {
        Lent::get(self, i)
    }
}

ghost use Rattle.std.specs.Prelude.{◌≡◌, [], refl};
ghost use Rattle.job.specs.ByteSinks.{over, byte_acts};
ghost use Rattle.job.specs.ByteSinkLaws.{spelling_grows};

use crate::history::History;
use crate::writer::write_command;
use path::command::Command;
use sinks::sink::{Refused, Sink};

/// A sink that writes each command as its record of a job, over bytes that the caller lends. Unlike a
/// tape it cannot be read back, and its caller knows what the bytes hold in the end. By rule it is the
/// bytes and how many are used; the commands are there for proofs alone.
#[derive(Drop)]
pub struct ByteSink<'a> {
    bytes: &'a mut [u8],
    used: usize,
    taken: History,
}

impl<'a> ByteSink<'a> {
    /// A sink of no commands.
    pub fn new(bytes: &'a mut [u8]) -> ByteSink<'a>
        ensures { result ≡ over bytes.entry [] }
    {
        ByteSink {
            bytes,
            used: 0,
            taken: History::new(),
        }
    }

    /// How many bytes the records take.
    pub fn used(&self) -> usize
        ensures { result ≡ self.now.used }
    {
        self.used
    }
}

impl<'a> Sink for ByteSink<'a> {
    ghost acts = { byte_acts };

    ghost kept = { λ s c. refl };

    ghost grows = { spelling_grows };

    fn send(&mut self, c: Command) -> Result<(), Refused> {
        let ByteSink { bytes, used, taken } = self;
        *used += write_command(bytes, *used, c).ok_or(Refused)?;
        *taken = taken.and(&c);
        Ok(())
    }
}

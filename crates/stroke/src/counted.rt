ghost use Rattle.std.specs.Prelude.{◌≡◌};
ghost use Rattle.stroke.specs.Counts.{counting};

use path::command::Command;
use sinks::sink::{Refused, Sink};

// A layer over a sink that counts the commands which it takes.
#[derive(Drop)]
pub(crate) struct Counted<'a, S> {
    pub(crate) sink: &'a mut S,
    pub(crate) sent: u64,
}

impl<'a, S> Counted<'a, S> {
    pub(crate) fn new(sink: &'a mut S) -> Counted<'a, S>
        ensures { result ≡ record { sink = sink.entry; sent = 0 } }
    {
        Counted { sink, sent: 0 }
    }
}

impl<'a, S: Sink> Sink for Counted<'a, S> {
    ghost acts = { counting S.acts };

    ghost kept = { λ s c. S.kept s.sink.now c };

    ghost grows = { λ s c fits. S.grows s.sink.now c fits };

    #[inline(always)]
    fn send(&mut self, c: Command) -> Result<(), Refused> {
        self.sink.send(c)?;
        self.sent = self.sent.saturating_add(1);
        Ok(())
    }
}

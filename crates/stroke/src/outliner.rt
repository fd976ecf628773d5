ghost use Rattle.std.specs.Prelude.{◌≡◌, [], ◌∷◌, Ok};
ghost use Rattle.stroke.specs.Events.{commands, draw};
ghost use Rattle.stroke.specs.Outlines.{turn_between, emitted, join_events, split_events, cap_events};
ghost use Rattle.stroke.specs.Outliners.{stage};

use maths::host::MathsHost;
use path::command::Command;
use path::style::Cap;
use pen::caps::cap_commands;
use pen::corner::Turn;
use pen::joins::{join, split_join};
use pen::nib::Nib;
use pen::offset::OffsetSegment;
use segments::segment::Segment;
use sinks::sink::{Refused, Sink};

// What draws an outline: where its commands go, whom it asks, and the nib.
#[derive(Drop)]
pub(crate) struct Outliner<'a, S, K> {
    pub(crate) sink: &'a mut S,
    pub(crate) host: &'a mut K,
    pub(crate) nib: Nib,
}

// From the end of one side to the start of the next.
pub(crate) fn turn_between(o: OffsetSegment, p: OffsetSegment) -> Turn
    ensures { result ≡ turn_between o p }
{
    Turn {
        from: o.end,
        to: p.start,
        pivot: o.end_pivot,
        from_normal: o.end_normal,
        to_normal: p.start_normal,
    }
}

impl<'a, S: Sink, K: MathsHost> Outliner<'a, S, K> {
    // One command more.
    #[tactic(auto, using(crate::proofs::Drawn::draw_send))]
    #[inline(always)]
    pub(crate) fn send(&mut self, c: Command) -> Result<(), Refused>
        ensures { stage K.acts self.new result
            ≡ draw S.acts K.acts (commands (c ∷ [])) (stage K.acts self.old (Ok tt)) }
    {
        self.sink.send(c)
    }

    // Each command in order, up to the first refusal.
    #[tactic(auto, using(crate::proofs::Drawn::sending))]
    pub(crate) fn send_all(&mut self, row: &[Command]) -> Result<(), Refused>
        ensures { stage K.acts self.new result
            ≡ draw S.acts K.acts (commands row.now) (stage K.acts self.old (Ok tt)) }
    {
        for c in row {
            self.send(*c)?;
        }
        Ok(())
    }

    // A side itself: a line to its end, or a curve with its last three points.
    #[tactic(auto, using(crate::proofs::Drawn::draw_none))]
    pub(crate) fn emit(&mut self, segment: Segment) -> Result<(), Refused>
        ensures { stage K.acts self.new result
            ≡ draw S.acts K.acts (commands (emitted segment)) (stage K.acts self.old (Ok tt)) }
    {
        match segment {
            Segment::Line(_, line) => self.send(Command::LineTo(line.b)),
            Segment::Curve(_, curve) => self.send(Command::CurveTo(curve.b, curve.c, curve.d)),
            Segment::End(_) => Ok(()),
        }
    }

    // The three stay apart: a closure that makes the commands would have to carry the clauses of each.
    #[tactic(auto, using(crate::proofs::Drawn::draw_asked, maths::proofs::Asking::asked_same))]
    #[inline(always)]
    pub(crate) fn join(&mut self, o: OffsetSegment, p: OffsetSegment) -> Result<(), Refused>
        ensures { stage K.acts self.new result
            ≡ draw S.acts K.acts (join_events (turn_between o p)) (stage K.acts self.old (Ok tt)) }
    {
        let turn = turn_between(o, p);
        let commands = join(self.nib, turn, self.host);
        self.send_all(commands.as_slice())
    }

    #[tactic(auto, using(crate::proofs::Drawn::draw_asked, maths::proofs::Asking::asked_same))]
    #[inline(always)]
    pub(crate) fn split_join(&mut self, o: OffsetSegment, p: OffsetSegment) -> Result<(), Refused>
        ensures { stage K.acts self.new result
            ≡ draw S.acts K.acts (split_events (turn_between o p)) (stage K.acts self.old (Ok tt)) }
    {
        let turn = turn_between(o, p);
        let commands = split_join(self.nib, turn, self.host);
        self.send_all(commands.as_slice())
    }

    #[tactic(auto, using(crate::proofs::Drawn::draw_asked, maths::proofs::Asking::asked_same))]
    pub(crate) fn cap(&mut self, shape: Cap, turn: Turn) -> Result<(), Refused>
        ensures { stage K.acts self.new result
            ≡ draw S.acts K.acts (cap_events shape turn) (stage K.acts self.old (Ok tt)) }
    {
        let commands = cap_commands(shape, self.nib.radius, turn, self.host);
        self.send_all(commands.as_slice())
    }
}

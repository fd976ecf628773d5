ghost use Rattle.std.specs.Prelude.{◌≡◌, ◌+◌, ◌^◌, ◌<◌, ◌≤◌, length, None, Some, IfOk, option_map};
ghost use Rattle.dashes.specs.PatternValues.{values};
ghost use Rattle.dashes.specs.StepCounts.{most_steps, none_taken};
ghost use Rattle.dashes.specs.Walks.{Within};
ghost use Rattle.segments.specs.declared.segment.Segment.TheVariants.{End};
ghost use Rattle.stroke.specs.Calls.{clears, steps, stores};
ghost use Rattle.stroke.specs.Outcomes.{why_not};
ghost use Rattle.stroke.specs.Strokers.{Drawable, Walked, acting, dash, dash_step, goes_on, op_actions, plain, run_work, stop_of, stroking, taking, whole, why_full, why_spent, work};

use crate::outliner::Outliner;
use crate::row::Run;
use cursor::walk::Segments;
use dashes::dasher::{DashOp, Dasher, Range};
use dashes::pattern::Pattern;
use dashes::steps::{Spent, Steps};
use lists::lent::Full;
use maths::host::MathsHost;
use path::command::Command;
use path::refusal::Reason;
use pen::nib::Nib;
use segments::segment::Segment;
use sinks::sink::{Refused, Sink};
use storage::storage::Storage;

// What draws a path: where its commands go, whom it asks, the storage for the run at hand, the nib, the
// dash steps taken, and how many ends were read. An outliner is made for each outline: in a struct within
// a struct a caller's references are not told apart.
#[derive(Drop)]
pub(crate) struct Stroker<'a, S, B, K> {
    pub(crate) sink: &'a mut S,
    pub(crate) host: &'a mut K,
    pub(crate) storage: &'a mut B,
    pub(crate) nib: Nib,
    pub(crate) steps: Steps,
    pub(crate) ended: usize,
}

// What an outliner's answer means for a stroke.
fn refused_by_sink(r: Result<(), Refused>) -> Result<(), Reason>
    ensures { stop_of result ≡ why_not r }
{
    match r {
        Ok(()) => Ok(()),
        Err(_) => Err(Reason::SinkRefused),
    }
}

// What a storage's answer means for a stroke.
fn refused_by_storage(r: Result<(), Full>) -> Result<(), Reason>
    ensures { stop_of result ≡ why_full r }
{
    match r {
        Ok(()) => Ok(()),
        Err(_) => Err(Reason::StorageFull),
    }
}

// And that of a budget.
fn refused_by_budget(r: Result<(), Spent>) -> Result<(), Reason>
    ensures { stop_of result ≡ why_spent r }
{
    match r {
        Ok(()) => Ok(()),
        Err(_) => Err(Reason::StepsSpent),
    }
}

// Whether a walk goes on after it gave this.
fn goes_on(op: DashOp) -> bool
    ensures { result ≡ goes_on op }
{
    match op {
        DashOp::Done | DashOp::Stroke => false,
        DashOp::Continue | DashOp::Emit(_) => true,
    }
}

impl<'a, S: Sink, B: Storage, K: MathsHost> Stroker<'a, S, B, K> {
    // Before anything is done.
    pub(crate) fn new(
        nib: Nib,
        budget: u32,
        sink: &'a mut S,
        storage: &'a mut B,
        host: &'a mut K,
    ) -> Stroker<'a, S, B, K>
        ensures { result ≡ record {
          sink = sink.entry;
          host = host.entry;
          storage = storage.entry;
          nib = nib;
          steps = none_taken budget;
          ended = 0;
        } }
    {
        Stroker {
            sink,
            host,
            storage,
            nib,
            steps: Steps::new(budget),
            ended: 0,
        }
    }

    // One dash step.
    fn spend(&mut self) -> Result<(), Reason>
        ensures { stroking K.acts self.new (stop_of result)
            ≡ work S.acts B.acts K.acts (acting steps) (stroking K.acts self.old None) }
    {
        refused_by_budget(self.steps.spend())
    }

    #[tactic(auto, using(crate::proofs::Performing::do_clears))]
    // The storage is emptied for a run.
    fn clear(&mut self)
        ensures { stroking K.acts self.new None
            ≡ work S.acts B.acts K.acts (acting clears) (stroking K.acts self.old None) }
    {
        self.storage.clear();
    }

    // One segment more of the run.
    fn store(&mut self, segment: Segment) -> Result<(), Reason>
        ensures { stroking K.acts self.new (stop_of result)
            ≡ work S.acts B.acts K.acts (acting (stores segment)) (stroking K.acts self.old None) }
    {
        refused_by_storage(self.storage.push(segment))
    }

    // The outline of the run that the storage holds.
    fn draw_plain(&mut self, closed: bool) -> Result<(), Reason>
        ensures { stroking K.acts self.new (stop_of result)
            ≡ work S.acts B.acts K.acts (plain closed) (stroking K.acts self.old None) }
    {
        let mut outliner = Outliner {
            sink: self.sink,
            host: self.host,
            nib: self.nib,
        };
        let run = Run {
            storage: self.storage,
        };
        let drawn = outliner.stroke_segments(&run, closed);
        refused_by_sink(drawn)
    }

    // A dash of the run that the storage holds.
    fn draw_dash(&mut self, range: Range) -> Result<(), Reason>
        requires within { Within (length (B.acts.held self.old.storage.now)) range }
        requires few { length (B.acts.held self.old.storage.now) < 2 ^ 63 }
        ensures { stroking K.acts self.new (stop_of result)
            ≡ work S.acts B.acts K.acts (dash range) (stroking K.acts self.old None) }
    {
        let mut outliner = Outliner {
            sink: self.sink,
            host: self.host,
            nib: self.nib,
        };
        let drawn = outliner.dash_segments(self.storage, range);
        refused_by_sink(drawn)
    }

    #[tactic(auto, using(crate::proofs::Performing::do_none))]
    // What a dasher gave.
    fn draw_op(&mut self, op: DashOp) -> Result<(), Reason>
        requires { Drawable (length (B.acts.held self.old.storage.now)) op }
        ensures { stroking K.acts self.new (stop_of result)
            ≡ work S.acts B.acts K.acts (op_actions op) (stroking K.acts self.old None) }
    {
        match op {
            DashOp::Done | DashOp::Continue => Ok(()),
            DashOp::Emit(range) => self.draw_dash(range),
            DashOp::Stroke => self.draw_plain(true),
        }
    }

    // One step along the run; answers whether the walk goes on.
    fn dash_step(&mut self, dasher: &mut Dasher) -> Result<bool, Reason>
        ensures drew { stroking K.acts self.new (stop_of result)
            ≡ work S.acts B.acts K.acts (dash_step dasher.old) (stroking K.acts self.old None) }
        ensures walked { IfOk result
            (Walked dasher.old (B.acts.held self.old.storage.now) dasher.new) }
    {
        self.spend()?;
        let op = dasher.next(self.storage);
        self.draw_op(op)?;
        Ok(goes_on(op))
    }

    // The dashes of the run that the storage holds.
    fn draw_dashed(&mut self, pattern: Pattern, closed: bool) -> Result<(), Reason>
        requires some { 0 < length (B.acts.held self.old.storage.now) }
        requires budget { self.old.steps.budget ≤ most_steps }
        ensures { stroking K.acts self.new (stop_of result)
            ≡ work S.acts B.acts K.acts (run_work (Some (values pattern.entry)) closed)
            (stroking K.acts self.old None) }
    {
        let mut dasher = Dasher::init(closed, pattern);
        while dasher.seeks() {
            self.spend()?;
            dasher.seek();
        }
        loop {
            let more = self.dash_step(&mut dasher)?;
            if !more {
                return Ok(());
            }
        }
    }

    // The run that the storage holds, plain or with a pattern; an empty one does nothing.
    fn draw_run(&mut self, pattern: Option<Pattern>, closed: bool) -> Result<(), Reason>
        requires budget { self.old.steps.budget ≤ most_steps }
        ensures { stroking K.acts self.new (stop_of result)
            ≡ work S.acts B.acts K.acts (run_work (option_map values pattern.entry) closed)
            (stroking K.acts self.old None) }
    {
        if self.storage.len() == 0 {
            return Ok(());
        }
        match pattern {
            Some(pattern) => self.draw_dashed(pattern, closed),
            None => self.draw_plain(closed),
        }
    }

    // At an end that was read the run is drawn, and the storage emptied for the next one.
    fn end_run(&mut self, pattern: Option<Pattern>, closed: bool) -> Result<(), Reason>
        requires budget { self.old.steps.budget ≤ most_steps }
        requires few { self.old.ended + 1 < 2 ^ 64 }
        ensures { stroking K.acts self.new (stop_of result)
            ≡ work S.acts B.acts K.acts (taking (option_map values pattern.entry) (End closed))
            (stroking K.acts self.old None) }
    {
        self.ended += 1;
        self.draw_run(pattern, closed)?;
        self.clear();
        Ok(())
    }

    // What the cursor gave: a segment for the run at hand, or its end.
    fn take(&mut self, pattern: Option<Pattern>, segment: Segment) -> Result<(), Reason>
        requires budget { self.old.steps.budget ≤ most_steps }
        requires few { self.old.ended + 1 < 2 ^ 64 }
        ensures { stroking K.acts self.new (stop_of result)
            ≡ work S.acts B.acts K.acts (taking (option_map values pattern.entry) segment)
            (stroking K.acts self.old None) }
    {
        match segment {
            Segment::End(closed) => self.end_run(pattern, closed),
            Segment::Line(..) | Segment::Curve(..) => self.store(segment),
        }
    }

    // All that the commands give, run by run.
    pub(crate) fn stroke(
        &mut self,
        commands: &[Command],
        pattern: Option<Pattern>,
    ) -> Result<(), Reason>
        requires budget { self.old.steps.budget ≤ most_steps }
        requires fresh { self.old.ended ≡ 0 }
        requires few { length commands.now ≤ 4096 }
        ensures { stroking K.acts self.new (stop_of result)
            ≡ work S.acts B.acts K.acts (whole (option_map values pattern.entry) commands.now)
            (stroking K.acts self.old None) }
    {
        let mut cursor = Segments::new(true);
        self.clear();
        while let Some(segment) = cursor.next(commands, self.host) {
            self.take(pattern, segment)?;
        }
        self.draw_run(pattern, false)
    }
}

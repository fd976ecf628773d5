ghost use Rattle.std.specs.Prelude.{◌≡◌};

use crate::dasher::walk::Walk;
use crate::pattern::Pattern;
use storage::storage::Storage;

mod reach;
mod walk;

/// Where a dash lies on a run: its first and its last segment with a time on each. The first one is
/// counted from the end of the run where it is below 0, so that -1 is the last segment.
#[derive(Clone, Copy, PartialEq)]
pub struct Range {
    pub start: isize,
    pub end: isize,
    pub t0: f32,
    pub t1: f32,
}

/// What a call of `next` answers: that the walk is over, that it goes on, a dash to be drawn, or that
/// the whole run is one dash.
#[derive(Clone, Copy, PartialEq)]
pub enum DashOp {
    Done,
    Continue,
    Emit(Range),
    Stroke,
}

/// The walk of a pattern along a run.
#[derive(Clone, Copy)]
pub struct Dasher<'a> {
    pattern: Pattern<'a>,
    walk: Walk,
}

impl Range {
    ghost use Rattle.dashes.specs.Spans.{is_dot, departs};

    /// Whether it is a point of a segment.
    pub fn is_dot(self) -> bool
        ensures { result ≡ is_dot self }
    {
        self.start == self.end && self.t0 == self.t1
    }

    /// Whether it leaves the end of a segment for another time on that same segment.
    pub fn departs(self) -> bool
        ensures { result ≡ departs self }
    {
        self.start == self.end && self.t0 >= 1.0 && !(self.t1 == self.t0)
    }
}

impl<'a> Dasher<'a> {
    ghost use Rattle.std.specs.Prelude.{length, true};
    ghost use Rattle.dashes.specs.PatternValues.{values};
    ghost use Rattle.dashes.specs.Dashers.{begun, seeks, sought, next_of, InPlace, IsJoined};
    ghost use Rattle.dashes.specs.Walks.{GivesWithin, WalksWithin};

    /// The walk before its first step, with the first dash of the pattern taken. Whatever run it walks,
    /// every range that it gives lies on that run.
    pub fn init(closed: bool, pattern: Pattern<'a>) -> Dasher<'a>
        ensures walk { result ≡ record { pattern = pattern.entry; walk = begun (values pattern.entry) closed } }
        ensures within { WalksWithin result }
        ensures in_place { InPlace (values pattern.entry) result.walk }
        ensures joined { IsJoined (values pattern.entry) result.walk }
    {
        Dasher {
            pattern,
            walk: Walk::begin(closed, pattern),
        }
    }

    /// Whether a turn of the search for the offset is due.
    pub fn seeks(&self) -> bool
        ensures { result ≡ seeks (values self.now.pattern) self.now.walk }
    {
        self.walk.seeks(self.pattern)
    }

    /// One turn of the search for the offset: a dash or a gap is passed over.
    pub fn seek(&mut self)
        ensures after { self.new ≡ record { pattern = self.old.pattern; walk = sought (values self.old.pattern) self.old.walk } }
        ensures in_place { InPlace (values self.old.pattern) self.old.walk → InPlace (values self.new.pattern) self.new.walk }
        ensures joined { self.old.walk.is_first ≡ true → InPlace (values self.old.pattern) self.old.walk
            → IsJoined (values self.new.pattern) self.new.walk }
    {
        self.walk = self.walk.seek(self.pattern);
    }

    /// One dash or gap more along the run that the storage holds. A walk that stands on no segment of it
    /// is over.
    pub fn next<B: Storage>(&mut self, storage: &B) -> DashOp
        ensures op { result ≡ (next_of (values self.old.pattern) (B.acts.held storage.now) self.old.walk).op }
        ensures after { self.new ≡ record { pattern = self.old.pattern; walk = (next_of (values self.old.pattern) (B.acts.held storage.now) self.old.walk).after } }
        ensures within { GivesWithin (length (B.acts.held storage.now)) result }
        ensures in_place { InPlace (values self.old.pattern) self.old.walk → InPlace (values self.new.pattern) self.new.walk }
        ensures joined { InPlace (values self.old.pattern) self.old.walk → IsJoined (values self.old.pattern) self.old.walk
            → IsJoined (values self.new.pattern) self.new.walk }
    {
        let next = self.walk.next(self.pattern, storage);
        self.walk = next.after;
        next.op
    }
}

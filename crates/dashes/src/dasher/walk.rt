ghost use Rattle.std.specs.Prelude.{◌≡◌, ◌<◌, ◌≤◌, ◌^◌, length};
ghost use Rattle.dashes.specs.PatternValues.{values, taken};
ghost use Rattle.dashes.specs.Spans.{range_of};
ghost use Rattle.dashes.specs.Dashers.{begun, seeks, sought, first_dash, taken_by, advanced, reach_of, first_reach, course, span_to, span_of, drawn, op_of, after_of, walked, goes_on, stays, next_of};

use crate::dasher::reach::{Reach, find_reach};
use crate::dasher::{DashOp, Range};
use crate::pattern::{Pattern, Taken};
use storage::storage::Storage;

// Where a walk is. It stands on a segment at a time, a distance along it. Until the first dash is
// walked, `sum` has the lengths up to its end, those that the offset passed over with it.
#[derive(Clone, Copy)]
pub(crate) struct Walk {
    closed: bool,
    done: bool,
    on: bool,
    cur: usize,
    t0: f32,
    along: f32,
    index: usize,
    is_first: bool,
    first_on: bool,
    sum: f32,
}

// How one dash or gap lies on a run: from a time on a segment to a time on a segment, which is a
// distance along that. It may begin at the run's end and go on at its start.
#[derive(Clone, Copy)]
pub(crate) struct Span {
    start: usize,
    t0: f32,
    end: usize,
    t1: f32,
    along: f32,
    wraps: bool,
    on: bool,
}

// What becomes of a dash or gap: it is as it is; it is the last one of a closed run and goes on as the
// first one; the first dash of a closed run is walked again; it is all of a closed run; or the walk is
// over.
#[derive(Clone, Copy)]
pub(crate) enum Course {
    Plain,
    Joined,
    Replayed,
    Whole,
    Over,
}

// One call of `next`: how the dash or gap lies, the answer, and the walk afterwards.
#[derive(Clone, Copy)]
pub(crate) struct Next {
    pub(crate) span: Span,
    pub(crate) op: DashOp,
    pub(crate) after: Walk,
}

// At the end of a closed run a dash goes on as the first one, if that is on; where a gap ends the run,
// the first dash is still to be walked.
fn choose_course(arrived: bool, closed: bool, on: bool, first: bool, first_on: bool) -> Course
    ensures { result ≡ course arrived closed on first first_on }
{
    match (arrived, closed, on, first, first_on) {
        (true, _, _, _, _) => Course::Plain,
        (false, false, true, _, _) => Course::Plain,
        (false, false, false, _, _) => Course::Over,
        (false, true, true, true, _) => Course::Whole,
        (false, true, true, false, true) => Course::Joined,
        (false, true, true, false, false) => Course::Plain,
        (false, true, false, _, true) => Course::Replayed,
        (false, true, false, _, false) => Course::Over,
    }
}

impl Span {
    fn to(start: usize, t0: f32, reach: Reach, wraps: bool, on: bool) -> Span
        ensures { result ≡ span_to start t0 reach wraps on }
    {
        Span {
            start,
            t0,
            end: reach.at,
            t1: reach.time,
            along: reach.along,
            wraps,
            on,
        }
    }

    // The range, on a run of `count` segments.
    fn range(self, count: usize) -> Range
        requires number { count < 2 ^ 63 }
        requires start { self.start < count }
        requires end { self.end < count }
        ensures { result ≡ range_of count self }
    {
        let start = self.start as isize;
        Range {
            start: if self.wraps {
                start - count as isize
            } else {
                start
            },
            end: self.end as isize,
            t0: self.t0,
            t1: self.t1,
        }
    }
}

impl Walk {
    pub(crate) fn begin(closed: bool, pattern: Pattern) -> Walk
        ensures { result ≡ begun (values pattern.entry) closed }
    {
        let Taken { len, next } = pattern.take(true, 0);
        Walk {
            closed,
            done: false,
            on: true,
            cur: 0,
            t0: 0.0,
            along: 0.0,
            index: next,
            is_first: true,
            first_on: true,
            sum: len,
        }
    }

    pub(crate) fn seeks(self, pattern: Pattern) -> bool
        ensures { result ≡ seeks (values pattern.entry) self }
    {
        pattern.offset() > 0.0 && self.sum < pattern.offset()
    }

    pub(crate) fn seek(self, pattern: Pattern) -> Walk
        ensures { result ≡ sought (values pattern.entry) self }
    {
        let on = !self.on;
        let Taken { len, next } = pattern.take(on, self.index);
        Walk {
            on,
            index: next,
            first_on: on,
            sum: self.sum + len,
            ..self
        }
    }

    // What the offset leaves of the first dash.
    fn first_dash(self, pattern: Pattern) -> f32
        ensures { result ≡ first_dash (values pattern.entry) self }
    {
        if pattern.offset() > 0.0 {
            self.sum - pattern.offset()
        } else {
            self.sum
        }
    }

    // The dash or gap that is walked now.
    fn take(self, pattern: Pattern) -> Taken
        ensures { taken result ≡ taken_by (values pattern.entry) self }
    {
        if self.is_first {
            Taken {
                len: self.first_dash(pattern),
                next: self.index,
            }
        } else {
            pattern.take(self.on, self.index)
        }
    }

    // From the end of a segment to the start of the next one, but not from the last of `count`.
    fn advance(self, count: usize) -> Walk
        requires { self.cur < count }
        ensures { result ≡ advanced count self }
    {
        if self.t0 == 1.0 && self.cur + 1 < count {
            Walk {
                cur: self.cur + 1,
                t0: 0.0,
                along: 0.0,
                ..self
            }
        } else {
            self
        }
    }

    // How far a length comes from here; a length of 0 stays.
    fn reach<B: Storage>(self, storage: &B, len: f32) -> Reach
        ensures { result ≡ reach_of (B.acts.held storage.now) self len }
    {
        if len == 0.0 {
            Reach {
                arrived: true,
                at: self.cur,
                along: self.along,
                time: self.t0,
            }
        } else {
            find_reach(storage, self.cur, self.along, len)
        }
    }

    fn first_reach<B: Storage>(self, pattern: Pattern, storage: &B) -> Reach
        ensures { result ≡ first_reach (values pattern.entry) (B.acts.held storage.now) self }
    {
        find_reach(storage, 0, 0.0, self.first_dash(pattern))
    }

    fn span<B: Storage>(self, pattern: Pattern, storage: &B, reach: Reach, course: Course) -> Span
        ensures { result ≡ span_of (values pattern.entry) (B.acts.held storage.now) self reach course }
    {
        match course {
            Course::Joined => Span::to(
                self.cur,
                self.t0,
                self.first_reach(pattern, storage),
                true,
                true,
            ),
            Course::Replayed => {
                Span::to(0, 0.0, self.first_reach(pattern, storage), false, true)
            }
            Course::Plain | Course::Whole | Course::Over => {
                Span::to(self.cur, self.t0, reach, false, self.on)
            }
        }
    }

    // A dash is drawn, but not the first one of a closed run.
    fn draw(self, span: Span, count: usize) -> DashOp
        requires number { count < 2 ^ 63 }
        requires start { span.start < count }
        requires end { span.end < count }
        ensures { result ≡ drawn count self span }
    {
        if span.on && !(self.is_first && self.closed) {
            DashOp::Emit(span.range(count))
        } else {
            DashOp::Continue
        }
    }

    fn answer(self, span: Span, course: Course, count: usize) -> DashOp
        requires number { count < 2 ^ 63 }
        requires start { span.start < count }
        requires end { span.end < count }
        ensures { result ≡ op_of count self span course }
    {
        match course {
            Course::Whole => DashOp::Stroke,
            Course::Over => DashOp::Done,
            Course::Plain | Course::Joined | Course::Replayed => self.draw(span, count),
        }
    }

    // The walk where the span ends, or where it is over.
    fn after(self, span: Span, done: bool, index: usize, course: Course) -> Walk
        ensures { result ≡ after_of self span done index course }
    {
        match course {
            Course::Whole | Course::Over => Walk {
                done: true,
                index,
                ..self
            },
            Course::Plain | Course::Joined | Course::Replayed => Walk {
                done,
                on: !span.on,
                cur: span.end,
                t0: span.t1,
                along: span.along,
                index,
                is_first: false,
                ..self
            },
        }
    }

    // Walks a length that reaches so far from here.
    fn walk<B: Storage>(self, pattern: Pattern, storage: &B, index: usize, reach: Reach) -> Next
        requires number { length (B.acts.held storage.now) < 2 ^ 63 }
        requires start { self.cur < length (B.acts.held storage.now) }
        requires end { reach.at < length (B.acts.held storage.now) }
        ensures { result ≡ walked (values pattern.entry) (B.acts.held storage.now) self index reach }
    {
        let course = choose_course(
            reach.arrived,
            self.closed,
            self.on,
            self.is_first,
            self.first_on,
        );
        let span = self.span(pattern, storage, reach, course);
        Next {
            span,
            op: self.answer(span, course, storage.len()),
            after: self.after(span, !reach.arrived, index, course),
        }
    }

    // Whether a walk that is not over stands on a run of `count` segments. No memory holds a run of
    // 2^63 segments.
    fn goes_on(self, count: usize) -> bool
        ensures { result ≡ goes_on count self }
    {
        !self.done && self.cur < count && count <= 0x7fff_ffff_ffff_ffff
    }

    fn stay(self) -> Next
        ensures { result ≡ stays self }
    {
        Next {
            span: Span {
                start: self.cur,
                t0: self.t0,
                end: self.cur,
                t1: self.t0,
                along: self.along,
                wraps: false,
                on: self.on,
            },
            op: DashOp::Done,
            after: self,
        }
    }

    // One dash or gap more along the run.
    pub(crate) fn next<B: Storage>(self, pattern: Pattern, storage: &B) -> Next
        ensures { result ≡ next_of (values pattern.entry) (B.acts.held storage.now) self }
    {
        let count = storage.len();
        if !self.goes_on(count) {
            return self.stay();
        }
        let Taken { len, next } = self.take(pattern);
        let walk = self.advance(count);
        walk.walk(pattern, storage, next, walk.reach(storage, len))
    }
}

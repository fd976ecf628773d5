ghost use Rattle.std.specs.Prelude.{◌≡◌, false};
ghost use Rattle.std.specs.Float.{◌≤ᶠ◌, ◌<ᶠ◌, inf};
ghost use Rattle.numbers.specs.Arithmetic.{zero};
ghost use Rattle.curves.specs.Lines.{line, line_length, line_slice, line_time, line_reverse, FromZeroToOne};

use path::geometry::Point;

/// How far along a segment a distance lies: the distance, at most the segment's length, and the time
/// there. A line's time is from 0 to 1 where its length is above 0, and of length 0 it is NaN at 0.
#[derive(Clone, Copy, PartialEq)]
pub struct SegmentTime {
    pub distance: f32,
    pub time: f32,
}

/// A line from a to b.
#[derive(Clone, Copy, PartialEq)]
pub struct Line {
    pub a: Point,
    pub b: Point,
}

impl Line {
    pub fn new(a: Point, b: Point) -> Line
        ensures { result ≡ line a b }
    {
        Line { a, b }
    }

    pub fn length(self) -> f32
        ensures { result ≡ line_length self }
    {
        self.b.sub(self.a).length()
    }

    /// The part between two times.
    pub fn slice(self, start: f32, end: f32) -> Line
        ensures { result ≡ line_slice self start end }
    {
        let dir = self.b.sub(self.a);
        Line::new(self.a.add(dir.mul(start)), self.a.add(dir.mul(end)))
    }

    /// The time at a distance. From 0 on it is from 0 to 1 where the line has a length above 0; no
    /// infinite distance lies on an infinite line.
    #[tactic(auto, using(crate::proofs::LineTimes::from_zero_to_one))]
    pub fn time(self, distance: f32) -> SegmentTime
        ensures value { result ≡ line_time self distance }
        ensures within { zero ≤ᶠ distance → distance <ᶠ inf false → zero <ᶠ line_length self
            → FromZeroToOne result.time }
    {
        let len = self.length();
        if distance > len {
            SegmentTime {
                distance: len,
                time: 1.0,
            }
        } else {
            SegmentTime {
                distance,
                time: distance / len,
            }
        }
    }

    /// The line run through the other way; twice, and it is the line again.
    pub fn reverse(self) -> Line
        ensures value { result ≡ line_reverse self }
        ensures back { line_reverse result ≡ self }
    {
        Line::new(self.b, self.a)
    }
}

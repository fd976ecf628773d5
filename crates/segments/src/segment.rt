ghost use Rattle.std.specs.Prelude.{◌≡◌};
ghost use Rattle.segments.specs.Pieces.{segment_length, segment_slice, segment_reverse, segment_time, line_point_normal, curve_point_normal, point_normal, to_segment};

use crate::mark::SegmentId;
use curves::curve::{Curve, MERGE_EPSILON};
use curves::line::{Line, SegmentTime};
use path::geometry::{Point, Vector, normal};

/// A piece of a path: a line or a curve, or the end of a subpath, with whether it was closed.
#[derive(Clone, Copy, PartialEq)]
pub enum Segment {
    Line(SegmentId, Line),
    Curve(SegmentId, Curve),
    End(bool),
}

impl Segment {
    pub fn length(self) -> f32
        ensures { result ≡ segment_length self }
    {
        match self {
            Segment::Line(_, line) => line.length(),
            Segment::Curve(_, curve) => curve.length(),
            Segment::End(_) => 0.0,
        }
    }

    /// The part between two times; an end is itself.
    pub fn slice(self, start: f32, end: f32) -> Segment
        ensures { result ≡ segment_slice self start end }
    {
        match self {
            Segment::Line(id, line) => Segment::Line(id, line.slice(start, end)),
            Segment::Curve(id, curve) => Segment::Curve(id, curve.slice(start, end)),
            Segment::End(_) => self,
        }
    }

    /// The segment run through the other way; an end is itself. Twice, and it is the segment again.
    pub fn reverse(self) -> Segment
        ensures value { result ≡ segment_reverse self }
        ensures back { segment_reverse result ≡ self }
    {
        match self {
            Segment::Line(id, line) => Segment::Line(id, line.reverse()),
            Segment::Curve(id, curve) => Segment::Curve(id, curve.reverse()),
            Segment::End(_) => self,
        }
    }

    /// The time at a distance along the segment, for a curve within the tolerance.
    pub fn time(self, distance: f32, tolerance: f32) -> SegmentTime
        ensures { result ≡ segment_time self distance tolerance }
    {
        match self {
            Segment::Line(_, line) => line.time(distance),
            Segment::Curve(_, curve) => curve.time(distance, tolerance),
            Segment::End(_) => SegmentTime {
                distance: 0.0,
                time: 0.0,
            },
        }
    }

    /// The point at a time, and the unit normal there; of an end, zero.
    pub fn point_normal(self, time: f32) -> (Point, Vector)
        ensures { result ≡ point_normal self time }
    {
        match self {
            Segment::Line(_, line) => line_point_normal(line, time),
            Segment::Curve(_, curve) => curve_point_normal(curve, time),
            Segment::End(_) => (Point::new(0.0, 0.0), Vector::new(0.0, 0.0)),
        }
    }
}

fn line_point_normal(line: Line, time: f32) -> (Point, Vector)
    ensures { result ≡ line_point_normal line time }
{
    let dir = line.b.sub(line.a);
    (line.a.add(dir.mul(time)), normal(line.a, line.b))
}

// The normal is that of the chord from 0.05 before the time to 0.05 after it.
fn curve_point_normal(curve: Curve, time: f32) -> (Point, Vector)
    ensures { result ≡ curve_point_normal curve time }
{
    let before = curve.evaluate(time - 0.05);
    let after = curve.evaluate(time + 0.05);
    (curve.evaluate(time), normal(before, after))
}

/// The segment that a piece of a curve is: a line from its first point to its last where two of its
/// legs are short, and none where these two points are near besides.
pub fn to_segment(curve: Curve, id: SegmentId) -> Option<Segment>
    ensures { result ≡ to_segment id curve }
{
    if !curve.is_line(MERGE_EPSILON) {
        Some(Segment::Curve(id, curve))
    } else if curve.a.nearly_eq_by(curve.d, MERGE_EPSILON) {
        None
    } else {
        Some(Segment::Line(id, Line::new(curve.a, curve.d)))
    }
}

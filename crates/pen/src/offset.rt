ghost use Rattle.std.specs.Prelude.{◌≡◌};
ghost use Rattle.pen.specs.Offsets.{leg_normal, bent, offset_line, offset_curve, offset_end, offset_of, GoesBetween};

use curves::curve::Curve;
use curves::line::Line;
use numbers::sqrt;
use path::geometry::{Point, Vector, normal};
use segments::mark::SegmentId;
use segments::segment::Segment;

// A leg shorter than this in both coordinates has no direction of its own.
const SHORT: f32 = 0.5;

/// A segment moved sideways by the radius: the moved segment with its ends, the normals there, and
/// the point about which the stroke turns at its end.
#[derive(Clone, Copy, PartialEq)]
pub struct OffsetSegment {
    pub segment: Segment,
    pub id: SegmentId,
    pub start: Point,
    pub end: Point,
    pub start_normal: Vector,
    pub end_normal: Vector,
    pub end_pivot: Point,
}

impl OffsetSegment {
    /// The segment moved; what is moved goes from the start of its side to the end.
    #[inline(always)]
    pub fn new(segment: Segment, radius: f32) -> OffsetSegment
        ensures value { result ≡ offset_of segment radius }
        ensures ends { GoesBetween result.start result.end result.segment }
    {
        match segment {
            Segment::Line(id, line) => offset_line(id, line, radius),
            Segment::Curve(id, curve) => offset_curve(id, curve, radius),
            Segment::End(_) => offset_end(segment),
        }
    }
}

fn offset_line(id: SegmentId, line: Line, radius: f32) -> OffsetSegment
    ensures { result ≡ offset_line id line radius }
{
    let n = normal(line.a, line.b);
    let nr = n.mul(radius);
    let start = line.a.add(nr);
    let end = line.b.add(nr);
    OffsetSegment {
        segment: Segment::Line(id, Line::new(start, end)),
        id,
        start,
        end,
        start_normal: n,
        end_normal: n,
        end_pivot: line.b,
    }
}

// The normal of the first leg that is not short, or of the whole chord where both are.
#[inline(always)]
fn leg_normal(leg: Line, next: Line, whole: Line) -> Vector
    ensures { result ≡ leg_normal leg next whole }
{
    if !leg.a.nearly_eq_by(leg.b, SHORT) {
        normal(leg.a, leg.b)
    } else if !next.a.nearly_eq_by(next.b, SHORT) {
        normal(next.a, next.b)
    } else {
        normal(whole.a, whole.b)
    }
}

// How far a control point moves between two legs with these normals.
fn bent(n: Vector, m: Vector, radius: f32) -> Vector
    ensures { result ≡ bent n m radius }
{
    let dot = n.dot(m);
    n.add(m).normalize().mul(radius / sqrt((1.0 + dot) * 0.5))
}

#[inline(always)]
fn offset_curve(id: SegmentId, c: Curve, radius: f32) -> OffsetSegment
    ensures { result ≡ offset_curve id c radius }
{
    let whole = Line::new(c.a, c.d);
    let first = leg_normal(Line::new(c.a, c.b), Line::new(c.a, c.c), whole);
    let middle = leg_normal(Line::new(c.b, c.c), Line::new(c.b, c.d), whole);
    let last = leg_normal(Line::new(c.c, c.d), Line::new(c.b, c.d), whole);
    let start = c.a.add(first.mul(radius));
    let end = c.d.add(last.mul(radius));
    let b = c.b.add(bent(first, middle, radius));
    let d = c.c.add(bent(last, middle, radius));
    OffsetSegment {
        segment: Segment::Curve(id, Curve::new(start, b, d, end)),
        id,
        start,
        end,
        start_normal: first,
        end_normal: last,
        end_pivot: c.d,
    }
}

fn offset_end(segment: Segment) -> OffsetSegment
    ensures { result ≡ offset_end segment }
{
    let zero = Vector::new(0.0, 0.0);
    OffsetSegment {
        segment,
        id: SegmentId::first(),
        start: zero,
        end: zero,
        start_normal: zero,
        end_normal: zero,
        end_pivot: zero,
    }
}

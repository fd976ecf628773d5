ghost use Rattle.std.specs.Prelude.{◌≡◌, Ok, [], ◌∷◌};
ghost use Rattle.stroke.specs.Events.{draw};
ghost use Rattle.stroke.specs.Outlines.{end_cap_events, start_cap_events, across, spot, has_cap, is_lone_dot, first_point, lone_dot};
ghost use Rattle.stroke.specs.Outliners.{stage};
ghost use Rattle.stroke.specs.Ranges.{dot_slice, dot_around, dash_dot};

use crate::outliner::Outliner;
use crate::ring::side;
use crate::row::Row;
use maths::host::MathsHost;
use path::command::Command;
use path::geometry::{Point, Vector};
use path::style::Cap;
use pen::corner::Turn;
use pen::nib::Nib;
use pen::offset::OffsetSegment;
use segments::segment::Segment;
use sinks::sink::{Refused, Sink};

// Whether one of the caps at least is not butt.
fn has_cap(nib: Nib) -> bool
    ensures { result ≡ has_cap nib }
{
    !(nib.start_cap == Cap::Butt && nib.end_cap == Cap::Butt)
}

// Whether a row is one segment of length 0, with a cap that is not butt.
pub(crate) fn is_lone_dot<R: Row>(row: &R, nib: Nib) -> bool
    ensures { result ≡ is_lone_dot nib (R.pieces row.now) }
{
    if row.len() != 1 {
        return false;
    }
    match row.get(0) {
        None => false,
        Some(x) => x.length() == 0.0 && has_cap(nib),
    }
}

// Where a segment begins.
fn first_point(segment: Segment) -> Point
    ensures { result ≡ first_point segment }
{
    match segment {
        Segment::Line(_, line) => line.a,
        Segment::Curve(_, curve) => curve.a,
        Segment::End(_) => Vector::new(0.0, 0.0),
    }
}

// The short slice around which a dash of length 0 is drawn, on the side of the time that lies within
// the segment.
fn dot_slice(segment: Segment, t: f32) -> Segment
    ensures { result ≡ dot_slice segment t }
{
    if t >= 1.0 {
        segment.slice(t - 0.001, t)
    } else {
        segment.slice(t, t + 0.001)
    }
}

// Around a point with that normal, from p across to q.
fn across(p: Point, q: Point, normal: Vector) -> Turn
    ensures { result ≡ across p q normal }
{
    Turn {
        from: p,
        to: q,
        pivot: p,
        from_normal: normal,
        to_normal: normal,
    }
}

impl<'a, S: Sink, K: MathsHost> Outliner<'a, S, K> {
    // Across the end of a run or a dash, and across its start.
    #[tactic(auto, using(crate::proofs::Drawn::draw_by_nib))]
    pub(crate) fn cap_end(&mut self, turn: Turn) -> Result<(), Refused>
        ensures { stage K.acts self.new result
            ≡ draw S.acts K.acts (end_cap_events turn) (stage K.acts self.old (Ok tt)) }
    {
        self.cap(self.nib.end_cap, turn)
    }

    #[tactic(auto, using(crate::proofs::Drawn::draw_by_nib))]
    pub(crate) fn cap_start(&mut self, turn: Turn) -> Result<(), Refused>
        ensures { stage K.acts self.new result
            ≡ draw S.acts K.acts (start_cap_events turn) (stage K.acts self.old (Ok tt)) }
    {
        self.cap(self.nib.start_cap, turn)
    }

    // Two caps around a point with that normal: from p across to q, and back.
    #[tactic(auto, using(crate::proofs::Drawn::drawing))]
    fn spot(&mut self, p: Point, q: Point, normal: Vector) -> Result<(), Refused>
        ensures { stage K.acts self.new result
            ≡ draw S.acts K.acts (spot p q normal) (stage K.acts self.old (Ok tt)) }
    {
        let there = across(p, q, normal);
        let back = across(q, p, normal.mul(-1.0));
        self.send(Command::MoveTo(p))?;
        self.cap_end(there)?;
        self.cap_start(back)
    }

    // The dot around where a row begins, on a vertical line: nothing where it has no segments.
    #[tactic(auto, using(crate::proofs::Drawn::drawing))]
    pub(crate) fn lone_dot<R: Row>(&mut self, row: &R) -> Result<(), Refused>
        ensures { stage K.acts self.new result
            ≡ draw S.acts K.acts (lone_dot (R.pieces row.now)) (stage K.acts self.old (Ok tt)) }
    {
        let Some(segment) = row.get(0) else {
            return Ok(());
        };
        let point = first_point(segment);
        let up = Vector::new(0.0, 1.0);
        let way = up.mul(self.nib.radius);
        self.spot(point.add(way), point.sub(way), up)
    }

    // A spot at the start of a side, and the close.
    #[tactic(auto, using(crate::proofs::Drawn::drawing))]
    fn dot_around(&mut self, o: OffsetSegment) -> Result<(), Refused>
        ensures { stage K.acts self.new result
            ≡ draw S.acts K.acts (dot_around o) (stage K.acts self.old (Ok tt)) }
    {
        let across = o.start.sub(o.start_normal.mul(2.0 * self.nib.radius));
        self.spot(o.start, across, o.start_normal)?;
        self.send(Command::Close)
    }

    // A dash of length 0 at a time of a segment: nothing with two butt caps.
    #[tactic(auto, using(crate::proofs::Drawn::drawing))]
    pub(crate) fn dash_dot(&mut self, segment: Segment, t: f32) -> Result<(), Refused>
        ensures { stage K.acts self.new result
            ≡ draw S.acts K.acts (dash_dot t (segment ∷ [])) (stage K.acts self.old (Ok tt)) }
    {
        if has_cap(self.nib) {
            self.dot_around(side(self.nib, dot_slice(segment, t)))
        } else {
            Ok(())
        }
    }
}

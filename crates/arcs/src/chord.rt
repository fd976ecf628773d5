ghost use Rattle.std.specs.Prelude.{◌≡◌};
ghost use Rattle.arcs.specs.Centres.{radii_of};
ghost use Rattle.arcs.specs.Chords.{half_way, middle, larger_part, divided, long, direction, turn_back, half_chord_of, length_of_u, grows, half_turn, is_short};

use crate::arc_to::{ArcSize, ArcTo};
use crate::centre::{Turned, TurnedArc, factor, larger};
use crate::radii::Radii;
use numbers::sqrt;
use path::geometry::{Point, Vector};

// Half of the way from the end of an arc back to its start. Each end is halved first, so that the
// difference is finite where the ends are; and so with their middle.
pub(crate) fn half_way(arc: ArcTo) -> Vector
    ensures { result ≡ half_way arc }
{
    let ArcTo { from, to, .. } = arc;
    Vector::new(from.x / 2.0 - to.x / 2.0, from.y / 2.0 - to.y / 2.0)
}

pub(crate) fn middle(arc: ArcTo) -> Point
    ensures { result ≡ middle arc }
{
    let ArcTo { from, to, .. } = arc;
    Vector::new(from.x / 2.0 + to.x / 2.0, from.y / 2.0 + to.y / 2.0)
}

pub(crate) fn larger_part(v: Vector) -> f32
    ensures { result ≡ larger_part v }
{
    larger(v.x.abs(), v.y.abs())
}

pub(crate) fn divided(v: Vector, k: f32) -> Vector
    ensures { result ≡ divided v k }
{
    Vector::new(v.x / k, v.y / k)
}

// The length of a vector. Its larger part is taken out first, so that no square leaves the range of f32.
fn long(v: Vector) -> f32
    ensures { result ≡ long v }
{
    let part = larger_part(v);
    part * divided(v, part).length()
}

fn direction(v: Vector) -> Vector
    ensures { result ≡ direction v }
{
    let w = divided(v, larger_part(v));
    divided(w, w.length())
}

// From the axes of the plane to those of the ellipse.
fn turn_back(t: Turned, v: Vector) -> Vector
    ensures { result ≡ turn_back t v }
{
    Vector::new(t.cosine * v.x + t.sine * v.y, t.cosine * v.y - t.sine * v.x)
}

/// Half of an arc's chord on the circle of radius 1 that its ellipse becomes, as a length and a direction.
/// The way between the ends and the radii are each multiplied by a power of two that brings them
/// near 1.
#[derive(Clone, Copy, PartialEq)]
pub struct HalfChord {
    pub long: f32,
    pub along: Vector,
    pub radii: Radii,
    pub radii_by: f32,
    pub way_by: f32,
}

impl HalfChord {
    pub(crate) fn of(turned_arc: TurnedArc) -> HalfChord
        ensures { result ≡ half_chord_of turned_arc.arc turned_arc.turned }
    {
        let way = half_way(turned_arc.arc);
        let radii = Radii::of(turned_arc.arc);
        let way_by = factor(larger_part(way));
        let radii_by = factor(larger(radii.x, radii.y));
        let radii = radii.scaled(radii_by);
        let u = radii.to_circle(turn_back(turned_arc.turned, way.mul(way_by)));
        HalfChord {
            long: long(u),
            along: direction(u),
            radii,
            radii_by,
            way_by,
        }
    }

    fn length(self) -> f32
        ensures { result ≡ length_of_u self }
    {
        self.long * self.radii_by / self.way_by
    }

    // Whether the radii are too small for the chord, or just large enough.
    fn grows(self) -> bool
        ensures { result ≡ grows self }
    {
        !(self.length() < 1.0)
    }

    pub(crate) fn half_turn(self) -> HalfTurn
        ensures { result ≡ half_turn self }
    {
        let sine = if self.grows() { 1.0 } else { self.length() };
        HalfTurn {
            sine,
            cosine: sqrt((1.0 - sine) * (1.0 + sine)),
        }
    }

    // Whether the arc is at most half a turn.
    pub(crate) fn is_short(self, size: ArcSize) -> bool
        ensures { result ≡ is_short size self }
    {
        match size {
            ArcSize::Small => true,
            ArcSize::Large => self.grows(),
        }
    }
}

/// Half of the turn from one end of an arc to the other by the shorter way.
#[derive(Clone, Copy, PartialEq)]
pub struct HalfTurn {
    pub sine: f32,
    pub cosine: f32,
}

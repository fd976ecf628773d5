ghost use Rattle.std.specs.Prelude.{◌≡◌};
ghost use Rattle.std.specs.Float.{float_max};
ghost use Rattle.arcs.specs.Centres.{half_chord, factor, largest, scale_of, scaled_radii, lambda, grown, same_flags, distance_root, signed_root, centre_along, turn, placed_centre, centred_by, centred};
ghost use Rattle.path.specs.Vectors.{multiple};

use crate::arc_to::{ArcSize, ArcSweep, ArcTo};
use crate::radii::Radii;
use numbers::sqrt;
use path::geometry::{Point, Vector};
use std::num::{f32_from_bits_with_nan, f32_to_bits_with_nan};

/// The angle that an ellipse is turned by, as its sine and cosine.
#[derive(Clone, Copy, PartialEq)]
pub struct Turned {
    pub sine: f32,
    pub cosine: f32,
}

impl Turned {
    // From the axes of the ellipse to those of the plane.
    pub(crate) fn turn(self, v: Vector) -> Vector
        ensures { result ≡ turn self v }
    {
        let Turned { sine, cosine } = self;
        Vector::new(cosine * v.x - sine * v.y, sine * v.x + cosine * v.y)
    }
}

/// An arc by its centre: the ellipse's centre and radii, and where on it, as on a circle of radius 1
/// about 0, the arc begins and ends.
#[derive(Clone, Copy, PartialEq)]
pub struct Centred {
    pub centre: Point,
    pub radii: Radii,
    pub start: Vector,
    pub end: Vector,
}

// The power of two that brings a length into the range from 1 to 2, or near it at the ends of
// the range of f32; 1 for what is no finite number.
pub(crate) fn factor(length: f32) -> f32
    ensures { result ≡ factor length }
{
    let exponent = f32_to_bits_with_nan(length) / 0x80_0000 % 256;
    if exponent == 255 {
        1.0
    } else if exponent == 254 {
        f32_from_bits_with_nan(0x80_0000)
    } else {
        f32_from_bits_with_nan((254 - exponent) * 0x80_0000)
    }
}

// The larger of two numbers: where they are equal the first, which f32::max of today leaves open, and
// where one is NaN the other.
pub(crate) fn larger(a: f32, b: f32) -> f32
    ensures { result ≡ float_max a b }
{
    if (b <= a) | b.is_nan() { a } else { b }
}

// Half of the way from the end of an arc back to its start, along the axes of the ellipse, with the
// radii.
#[derive(Clone, Copy)]
pub(crate) struct Chord {
    pub(crate) half: Vector,
    pub(crate) radii: Radii,
}

impl Chord {
    pub(crate) fn largest(self) -> f32
        ensures { result ≡ largest self.half self.radii }
    {
        let along = larger(self.half.x.abs(), self.half.y.abs());
        larger(along, larger(self.radii.x, self.radii.y))
    }

    // What all lengths are multiplied by before their fourth powers are formed.
    fn scale(self, scaled: bool) -> f32
        ensures { result ≡ scale_of scaled self.half self.radii }
    {
        if scaled { factor(self.largest()) } else { 1.0 }
    }

    fn scaled(self, k: f32) -> Chord
        ensures half { result.half ≡ multiple self.half k }
        ensures radii { result.radii ≡ scaled_radii self.radii k }
    {
        Chord {
            half: self.half.mul(k),
            radii: self.radii.scaled(k),
        }
    }

    fn lambda(self) -> f32
        ensures { result ≡ lambda self.half self.radii }
    {
        let Chord { half, radii } = self;
        half.x * half.x / (radii.x * radii.x) + half.y * half.y / (radii.y * radii.y)
    }

    // With radii that are large enough.
    fn grown(self) -> Chord
        ensures half { result.half ≡ self.half }
        ensures radii { result.radii ≡ grown self.radii (lambda self.half self.radii) }
    {
        Chord {
            half: self.half,
            radii: self.radii.grown(self.lambda()),
        }
    }

    // How far the centre lies from the middle of the chord, as a multiple of the chord turned.
    fn distance_root(self) -> f32
        ensures { result ≡ distance_root self.half self.radii }
    {
        let Chord { half, radii } = self;
        let (rx2, ry2) = (radii.x * radii.x, radii.y * radii.y);
        let (x2, y2) = (half.x * half.x, half.y * half.y);
        let over = rx2 * ry2 - rx2 * y2 - ry2 * x2;
        // not `max`, with which a NaN would be 0
        let over = if over < 0.0 { 0.0 } else { over };
        sqrt(over / (rx2 * y2 + ry2 * x2))
    }
}

fn same_flags(arc: ArcTo) -> bool
    ensures { result ≡ same_flags arc.size arc.sweep }
{
    match (arc.size, arc.sweep) {
        (ArcSize::Large, ArcSweep::Positive) | (ArcSize::Small, ArcSweep::Negative) => true,
        (ArcSize::Large, ArcSweep::Negative) | (ArcSize::Small, ArcSweep::Positive) => false,
    }
}

fn signed_root(arc: ArcTo, chord: Chord) -> f32
    ensures { result ≡ signed_root arc chord.half chord.radii }
{
    let sign = if same_flags(arc) { -1.0 } else { 1.0 };
    chord.distance_root() * sign
}

// The centre along the axes of the ellipse, from the middle of the chord.
fn centre_along(arc: ArcTo, chord: Chord) -> Vector
    ensures { result ≡ centre_along arc chord.half chord.radii }
{
    let root = signed_root(arc, chord);
    let Chord { half, radii } = chord;
    Vector::new(
        root * radii.x / radii.y * half.y,
        root * -radii.y / radii.x * half.x,
    )
}

/// An arc with the sine and the cosine of its angle.
#[derive(Clone, Copy)]
pub(crate) struct TurnedArc {
    pub(crate) arc: ArcTo,
    pub(crate) turned: Turned,
}

impl TurnedArc {
    // Half of the way from the end back to the start, along the axes of the ellipse.
    pub(crate) fn half_chord(self) -> Vector
        ensures { result ≡ half_chord self.arc self.turned }
    {
        let TurnedArc { arc, turned } = self;
        let chord = arc.from.sub(arc.to);
        Vector::new(
            turned.cosine * chord.x / 2.0 + turned.sine * chord.y / 2.0,
            -turned.sine * chord.x / 2.0 + turned.cosine * chord.y / 2.0,
        )
    }

    // Turned back, and moved to the middle of the chord.
    fn placed_centre(self, c: Vector) -> Point
        ensures { result ≡ placed_centre self.arc self.turned c }
    {
        let ArcTo { from, to, .. } = self.arc;
        let middle = Vector::new((from.x + to.x) / 2.0, (from.y + to.y) / 2.0);
        self.turned.turn(c).add(middle)
    }

    // The arc by its centre; `half` is half of its chord along the axes.
    #[inline(always)]
    pub(crate) fn find_centre(self, half: Vector, scaled: bool) -> Centred
        ensures { result ≡ centred self.arc self.turned half scaled }
    {
        let chord = Chord {
            half,
            radii: Radii::of(self.arc),
        };
        let k = chord.scale(scaled);
        self.find_centre_by(chord.scaled(k), k)
    }

    // The same from lengths that are multiplied by k.
    #[inline(always)]
    fn find_centre_by(self, chord: Chord, k: f32) -> Centred
        ensures { result ≡ centred_by self.arc self.turned chord.half chord.radii k }
    {
        let chord = chord.grown();
        let c = centre_along(self.arc, chord);
        let Chord { half, radii } = chord;
        Centred {
            centre: self.placed_centre(Vector::new(c.x / k, c.y / k)),
            radii: radii.divided(k),
            start: radii.to_circle(half.sub(c)),
            end: radii.to_circle(Vector::new(-half.x, -half.y).sub(c)),
        }
    }
}

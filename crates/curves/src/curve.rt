ghost use Rattle.std.specs.Prelude.{◌≡◌};
ghost use Rattle.numbers.specs.Arithmetic.{zero, one};
ghost use Rattle.curves.specs.Curves.{curve, from_quadratic, blended, blossom, slice_of, reversed, evaluated, two_legs_near, too_curvy, next_chord, curve_length, turns, needs_split, chord_time, timed, curve_time};

use crate::line::SegmentTime;
use path::geometry::{Point, Vector, normal};

/// Points that are nearer than this in both coordinates count as one.
pub const MERGE_EPSILON: f32 = 0.01;

// Half the root of 2, and a tenth.
const FLAT_ENOUGH: f32 = 0.8071068;

// How deep a curve is halved to find the time at a distance.
const LEVELS: u8 = 5;

/// A cubic curve from a to d, with the control points b and c.
#[derive(Clone, Copy, PartialEq)]
pub struct Curve {
    pub a: Point,
    pub b: Point,
    pub c: Point,
    pub d: Point,
}

// A walk along a curve, chord by chord: how far it has come in time, where it is, and the length.
#[derive(Clone, Copy)]
struct Walk {
    t: f32,
    at: Point,
    len: f32,
}

impl Curve {
    pub fn new(a: Point, b: Point, c: Point, d: Point) -> Curve
        ensures { result ≡ curve a b c d }
    {
        Curve { a, b, c, d }
    }

    /// The cubic curve that a quadratic one is, by the Rust's name.
    pub fn from_quadratic(a: Point, b: Point, c: Point) -> Curve
        ensures { result ≡ from_quadratic a b c }
    {
        let first = Point::new(a.x + 2.0 / 3.0 * (b.x - a.x), a.y + 2.0 / 3.0 * (b.y - a.y));
        let second = Point::new(c.x + 2.0 / 3.0 * (b.x - c.x), c.y + 2.0 / 3.0 * (b.y - c.y));
        Curve::new(a, first, second, c)
    }

    // The four points, each times its weight, added up.
    fn blend(self, w: [f32; 4]) -> Point
        ensures { result ≡ blended self w }
    {
        let [w0, w1, w2, w3] = w;
        self.a
            .mul(w0)
            .add(self.b.mul(w1))
            .add(self.c.mul(w2))
            .add(self.d.mul(w3))
    }

    // The polar form at three times.
    fn blossom(self, p: f32, q: f32, r: f32) -> Point
        ensures { result ≡ blossom self p q r }
    {
        let (u, v, w) = (1.0 - p, 1.0 - q, 1.0 - r);
        self.blend([
            u * v * w,
            p * v * w + u * q * w + u * v * r,
            p * q * w + u * q * r + p * v * r,
            p * q * r,
        ])
    }

    /// The part between two times.
    pub fn slice(self, start: f32, end: f32) -> Curve
        ensures { result ≡ slice_of self start end }
    {
        Curve::new(
            self.blossom(start, start, start),
            self.blossom(start, start, end),
            self.blossom(start, end, end),
            self.blossom(end, end, end),
        )
    }

    /// The curve run through the other way; twice, and it is the curve again.
    pub fn reverse(self) -> Curve
        ensures value { result ≡ reversed self }
        ensures back { reversed result ≡ self }
    {
        Curve::new(self.d, self.c, self.b, self.a)
    }

    /// The point at a time.
    pub fn evaluate(self, time: f32) -> Point
        ensures { result ≡ evaluated self time }
    {
        let t = time;
        let u = 1.0 - t;
        self.blend([u * u * u, 3.0 * u * u * t, 3.0 * u * t * t, t * t * t])
    }

    /// Whether two of the three legs are shorter than the tolerance in both coordinates; the way in
    /// which the curve is run through makes no difference.
    pub fn is_line(self, tolerance: f32) -> bool
        ensures value { result ≡ two_legs_near self tolerance }
        ensures either_way { result ≡ two_legs_near (reversed self) tolerance }
    {
        let ab = self.a.nearly_eq_by(self.b, tolerance);
        let bc = self.b.nearly_eq_by(self.c, tolerance);
        let cd = self.c.nearly_eq_by(self.d, tolerance);
        // a sum of flags, which a filter and a count would not make plainer
        ab as u8 + bc as u8 + cd as u8 >= 2
    }

    pub fn split(self, t: f32) -> (Curve, Curve)
        ensures { result ≡ (slice_of self zero t, slice_of self t one) }
    {
        (self.slice(0.0, t), self.slice(t, 1.0))
    }

    /// Whether the curve is farther than the tolerance from its chord, run through evenly.
    pub fn too_curvy(self, tolerance: f32) -> bool
        ensures { result ≡ too_curvy self tolerance }
    {
        (2.0 * self.d.x - 3.0 * self.c.x + self.a.x).abs() > tolerance
            || (2.0 * self.d.y - 3.0 * self.c.y + self.a.y).abs() > tolerance
            || (self.d.x - 3.0 * self.b.x + 2.0 * self.a.x).abs() > tolerance
            || (self.d.y - 3.0 * self.b.y + 2.0 * self.a.y).abs() > tolerance
    }

    /// The length of 65 chords, each 1/64 in time; the last one passes the end.
    pub fn length(self) -> f32
        ensures { result ≡ curve_length self }
    {
        let mut walk = Walk {
            t: 0.0,
            at: self.a,
            len: 0.0,
        };
        for i in 0..65u32 {
            walk = self.next_chord(walk);
        }
        walk.len
    }

    fn next_chord(self, walk: Walk) -> Walk
        ensures { result ≡ next_chord self walk }
    {
        let t = walk.t + 0.015625;
        let at = self.evaluate(t);
        Walk {
            t,
            at,
            len: walk.len + at.sub(walk.at).length(),
        }
    }

    /// Whether the legs turn too far for one offset curve.
    pub fn needs_split(self) -> bool
        ensures { result ≡ needs_split self }
    {
        if self.b.nearly_eq_by(self.c, MERGE_EPSILON) {
            return true;
        }
        let bc = normal(self.b, self.c);
        turns(normal(self.a, self.b), bc) || turns(bc, normal(self.c, self.d))
    }

    /// The time at a distance along the curve, by chords of pieces that are flat within the tolerance.
    pub fn time(self, distance: f32, tolerance: f32) -> SegmentTime
        ensures { result ≡ curve_time self distance tolerance }
    {
        let (distance, time) = self.time_impl(distance, tolerance, 1.0, LEVELS);
        SegmentTime { distance, time }
    }

    // The distance and the time, as a pair by rule, as far as this piece goes; it lasts t, and is halved
    // at most so many levels deep.
    fn time_impl(self, distance: f32, tolerance: f32, t: f32, levels: u8) -> (f32, f32)
        ensures { result ≡ timed levels self distance tolerance t }
    {
        if levels == 0 || !self.too_curvy(tolerance) {
            return self.chord_time(distance, t);
        }
        let (first, second) = self.split(0.5);
        let (dist0, t0) = first.time_impl(distance, tolerance, t * 0.5, levels - 1);
        if dist0 < distance {
            let (dist1, t1) = second.time_impl(distance - dist0, tolerance, t * 0.5, levels - 1);
            (dist0 + dist1, t0 + t1)
        } else {
            (dist0, t0)
        }
    }

    fn chord_time(self, distance: f32, t: f32) -> (f32, f32)
        ensures { result ≡ chord_time self distance t }
    {
        let dist = self.d.sub(self.a).length();
        if dist >= distance {
            (distance, t * (distance / dist))
        } else {
            (dist, t)
        }
    }
}

fn turns(n: Vector, m: Vector) -> bool
    ensures { result ≡ turns n m }
{
    n.dot(m) <= FLAT_ENOUGH
}

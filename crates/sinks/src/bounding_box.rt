ghost use Rattle.std.specs.Prelude.{◌≡◌, T};
ghost use Rattle.sinks.specs.Corners.{InOrder};
ghost use Rattle.sinks.specs.Boxes.{lower, upper, number, point_box, around, spread};

use path::geometry::Point;
use std::marker::Model;

/// The smallest box around some points: its corners are in order. A comparison with NaN is false, so
/// no corner has one.
#[derive(Clone, Copy, PartialEq)]
pub struct BoundingBox {
    pub low: Point,
    pub high: Point,
}

impl Model for BoundingBox {
    ghost use Rattle.sinks.specs.Corners.{Corners, InOrder};

    ghost Value = { Corners };

    ghost view = { λ b. record { low = b.low; high = b.high } };

    ghost invariant = { λ b. InOrder (record { low = b.low; high = b.high }) };

    ghost inverse = { λ c. record { low = c.low; high = c.high } };
}

impl BoundingBox {
    // What its type says of it.
    pub(crate) fn is_in_order(self)
        ensures { InOrder self }
    {
        let _ = self.low;
    }

    // The box of a point that is a number.
    fn at(p: Point) -> BoundingBox
        requires { T (number p) }
        ensures { result ≡ point_box p }
    {
        BoundingBox { low: p, high: p }
    }

    // Around one point more that is a number.
    #[tactic(auto, using(crate::proofs::Floats::widened))]
    fn around(self, p: Point) -> BoundingBox
        requires { T (number p) }
        ensures { result ≡ around self p }
    {
        let low = Point {
            x: lesser(self.low.x, p.x),
            y: lesser(self.low.y, p.y),
        };
        let high = Point {
            x: greater(self.high.x, p.x),
            y: greater(self.high.y, p.y),
        };
        BoundingBox { low, high }
    }
}

/// The box around one point more; a point with a NaN is passed over.
pub(crate) fn widen(bounds: Option<BoundingBox>, p: Point) -> Option<BoundingBox>
    ensures { result ≡ spread bounds p }
{
    if !is_number(p) {
        return bounds;
    }
    match bounds {
        None => Some(BoundingBox::at(p)),
        Some(b) => Some(b.around(p)),
    }
}

// The first of two equal numbers, which f32::min and f32::max of today leave open.
fn lesser(a: f32, b: f32) -> f32
    ensures { result ≡ lower a b }
{
    if b < a { b } else { a }
}

fn greater(a: f32, b: f32) -> f32
    ensures { result ≡ upper a b }
{
    if b > a { b } else { a }
}

fn is_number(p: Point) -> bool
    ensures { result ≡ number p }
{
    !p.x.is_nan() && !p.y.is_nan()
}

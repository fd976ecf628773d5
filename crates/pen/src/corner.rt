ghost use Rattle.std.specs.Prelude.{◌≡◌};
ghost use Rattle.pen.specs.declared.corner.Corner.TheVariants as corner_is;
ghost use Rattle.pen.specs.Corners.{clockwise, turn_dot, half_turn_sine, miter_corner, corner_of, miter_point, IsFirstCause, WithinLimit};

use crate::nib::Nib;
use numbers::sqrt;
use path::geometry::{Point, Vector};
use path::style::Join;

/// A place where two sides of a stroke come together: the end of one and the start of the next, the
/// point between them on the path, and the normals of both.
#[derive(Clone, Copy, PartialEq)]
pub struct Turn {
    pub from: Point,
    pub to: Point,
    pub pivot: Point,
    pub from_normal: Vector,
    pub to_normal: Vector,
}

/// What shapes a corner. Each case holds exactly where its own condition does and none before it.
#[derive(Clone, Copy, PartialEq, Eq)]
pub enum Corner {
    /// The two ends meet.
    Meet,
    /// The stroke turns away from this side.
    Inner,
    /// The join is a bevel.
    Bevel,
    /// The join is round.
    Round,
    /// A miter would turn by more than a right angle.
    NegativeDot,
    /// A miter would be longer than its limit.
    PastLimit,
    /// A miter.
    Miter,
}

/// Whether the way from a to b turns clockwise.
pub fn is_clockwise(a: Vector, b: Vector) -> bool
    ensures { result ≡ clockwise a b }
{
    a.x * b.y > a.y * b.x
}

impl Turn {
    // The cosine of the angle between the two normals.
    fn dot(self) -> f32
        ensures { result ≡ turn_dot self }
    {
        self.from_normal.dot(self.to_normal)
    }

    // The sine of half the angle between the two sides.
    fn sin_half(self) -> f32
        ensures { result ≡ half_turn_sine self }
    {
        sqrt((1.0 + self.dot()) * 0.5)
    }
}

impl Corner {
    /// What shapes the corner at a turn.
    #[tactic(auto, using(crate::proofs::Causes::first_cause))]
    pub fn between(nib: Nib, turn: Turn) -> Corner
        ensures value { result ≡ corner_of nib turn }
        ensures cause { IsFirstCause nib turn result }
        ensures limit { result ≡ corner_is.Miter → WithinLimit nib turn }
    {
        if turn.from.nearly_eq(turn.to) {
            return Corner::Meet;
        }
        if !is_clockwise(turn.from_normal, turn.to_normal) {
            return Corner::Inner;
        }
        match nib.join {
            Join::Bevel => Corner::Bevel,
            Join::Round => Corner::Round,
            Join::Miter => miter_corner(nib, turn),
        }
    }
}

fn miter_corner(nib: Nib, turn: Turn) -> Corner
    ensures { result ≡ miter_corner nib turn }
{
    if turn.dot() < 0.0 {
        Corner::NegativeDot
    } else if turn.sin_half() < nib.inv_miter_limit {
        Corner::PastLimit
    } else {
        Corner::Miter
    }
}

/// Where the two sides of a miter meet.
pub fn miter_point(nib: Nib, turn: Turn) -> Point
    ensures { result ≡ miter_point nib turn }
{
    let normals = turn.from_normal.add(turn.to_normal);
    let mid = normals.normalize().mul(nib.radius / turn.sin_half());
    turn.pivot.add(mid)
}

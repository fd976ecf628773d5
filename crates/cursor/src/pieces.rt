ghost use Rattle.std.specs.Prelude.{◌≡◌};
ghost use Rattle.curves.specs.Curves.{curve};
ghost use Rattle.lists.specs.Fixed.{fresh};
ghost use Rattle.numbers.specs.Arithmetic.{zero};
ghost use Rattle.path.specs.Vectors.{vector};

use curves::curve::Curve;
use lists::fixed::FixedList;
use path::geometry::Point;

/// Up to 16 curves, in order.
pub type Pieces = FixedList<Curve, 16>;

/// No curves; each place holds one whose points are all the origin.
pub fn none() -> Pieces
    ensures { result ≡ fresh 16 (curve (vector zero zero) (vector zero zero) (vector zero zero) (vector zero zero)) }
{
    let origin = Point::new(0.0, 0.0);
    FixedList::new(Curve::new(origin, origin, origin, origin))
}

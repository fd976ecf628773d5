ghost use Rattle.std.specs.Prelude.{◌≡◌};
ghost use Rattle.maths.specs.Questions.{all_asked};
ghost use Rattle.curves.specs.Ranges.{RootsWithin, RootsRise};
ghost use Rattle.curves.specs.Bends.{coefficients, summed, bend, bends, bend_questions};

use crate::curve::Curve;
use crate::roots::{Roots, solve};
use maths::host::MathsHost;

/// The times at which a curve bends most or least, from 0 to 1.
pub fn max_curvature<K: MathsHost>(curve: Curve, host: &mut K) -> Roots
    ensures answer { result ≡ bends (K.acts.functions host.old) curve }
    ensures host { host.new ≡ all_asked K.acts.asked host.old (bend_questions (K.acts.functions host.old) curve) }
    ensures within { RootsWithin result }
    ensures rising { RootsRise result }
{
    solve(bend(curve), host)
}

// The cubic that is 0 where the curvature has an extreme.
fn bend(curve: Curve) -> [f32; 4]
    ensures { result ≡ bend curve }
{
    let x = coefficients(curve.a.x, curve.b.x, curve.c.x, curve.d.x);
    let y = coefficients(curve.a.y, curve.b.y, curve.c.y, curve.d.y);
    // Four sums written out: `array::from_fn` would take them by index.
    [x[0] + y[0], x[1] + y[1], x[2] + y[2], x[3] + y[3]]
}

// One coordinate's part of it: the first derivative times the second.
fn coefficients(p: f32, q: f32, r: f32, s: f32) -> [f32; 4]
    ensures { result ≡ coefficients p q r s }
{
    let a = q - p;
    let b = r - 2.0 * q + p;
    let c = s + 3.0 * (q - r) - p;
    [c * c, 3.0 * b * c, 2.0 * b * b + c * a, a * b]
}

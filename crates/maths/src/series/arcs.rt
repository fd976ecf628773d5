ghost use Rattle.std.specs.Prelude.{◌≡◌};
ghost use Rattle.maths.specs.Arcs.{arc_series, near_arc, end_arc, wide_arc, kept};

use crate::host::{HALF_TURN, in_range, not_a_number};
use crate::series::polynomials::{cubic, quadratic, sextic};

/// The arc cosine; NaN past -1 and 1, where a root of a negative number is taken.
#[inline(always)]
pub(crate) fn arc_cosine(x: f64) -> f64
    ensures { result ≡ wide_arc x }
{
    if 0.5 < x {
        end_arc(1.0 - x)
    } else if x < -0.5 {
        3.141592653589793 - end_arc(1.0 + x)
    } else {
        1.5707963267948966 - near_arc(x)
    }
}

// The angle whose cosine is 1 - `gap`, for a gap of at most a half: twice the arc sine of the root of
// half the gap.
#[inline(always)]
fn end_arc(gap: f64) -> f64
    ensures { result ≡ end_arc gap }
{
    (gap + gap).sqrt() * arc_series(gap * 0.5)
}

// The arc sine of at most a half.
#[inline(always)]
fn near_arc(x: f64) -> f64
    ensures { result ≡ near_arc x }
{
    x * arc_series(x * x)
}

// The arc sine over the sine, by the sine's square.
#[inline(always)]
fn arc_series(z: f64) -> f64
    ensures { result ≡ arc_series z }
{
    let first = cubic(
        1.0000000002546068,
        0.1666665694469381,
        0.07500604106595138,
        0.044503085286757296,
        z,
    );
    let last = quadratic(
        0.03190081413080792,
        0.01413945666959958,
        0.037885628632745846,
        z,
    );
    sextic(first, last, z)
}

/// An angle within its range, or the end of the range that it passes; NaN stays NaN. Its first test is
/// that of a host's law, which `clamp` would not share.
#[inline(always)]
pub(crate) fn kept(y: f32) -> f32
    ensures { result ≡ kept y }
{
    if in_range(y) {
        y
    } else if y < 0.0 {
        0.0
    } else if HALF_TURN < y {
        HALF_TURN
    } else {
        not_a_number()
    }
}

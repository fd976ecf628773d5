ghost use Rattle.std.specs.Prelude.{◌≡◌};
ghost use Rattle.replay_maths.specs.Steps.{place, steps, same, gap, apart, close};

use std::num::{f32_to_bits_with_nan, f32_to_f64_with_nan, saturating_f64_to_u64};

/// How many units in the last place lie between two numbers, which are any two and no pair of their
/// own. 0 and -0 are at one place, and NaN is
/// far past infinity.
pub fn steps(x: f32, y: f32) -> u64
    ensures { result ≡ steps x y }
{
    place(x).abs_diff(place(y))
}

// The place of a number among all `f32` in their order.
fn place(x: f32) -> u64
    ensures { result ≡ place x }
{
    let bits = u64::from(f32_to_bits_with_nan(x));
    if 0x8000_0000 <= bits {
        0x1_0000_0000 - bits
    } else {
        0x8000_0000 + bits
    }
}

/// Whether two answers are one number, 0 and -0 apart, or both NaN.
pub fn same(x: f32, y: f32) -> bool
    ensures { result ≡ same x y }
{
    f32_to_bits_with_nan(x) == f32_to_bits_with_nan(y)
}

fn gap(x: f32, y: f32) -> f64
    ensures { result ≡ gap x y }
{
    let difference = f32_to_f64_with_nan(x) - f32_to_f64_with_nan(y);
    difference.abs()
}

/// The difference in units of 2^-40, rounded up; 0 with a NaN.
pub fn apart(x: f32, y: f32) -> u64
    ensures { result ≡ apart x y }
{
    let units = gap(x, y) * 1099511627776.0;
    saturating_f64_to_u64(units.ceil())
}

/// Whether two answers are the same or differ by no more than the limit.
pub fn close(x: f32, y: f32, limit: f64) -> bool
    ensures { result ≡ close x y limit }
{
    same(x, y) | (gap(x, y) <= limit)
}

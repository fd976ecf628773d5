ghost use Rattle.std.specs.Prelude.{◌≡◌};
ghost use Rattle.maths.specs.Powers.{near_root, root, root_series, lean, positive_power, improper_power, wide_power};

use crate::series::polynomials::{cubic, quadratic, sextic};
use std::num::{f32_to_f64_with_nan, f64_from_bits_with_nan, f64_to_bits_with_nan};

/// The power 0.3333333 of `x`. An infinity gives infinity, as in Rust.
#[inline(always)]
pub(crate) fn power(x: f32) -> f64
    ensures { result ≡ wide_power x }
{
    if 0.0 < x && x < f32::INFINITY {
        positive_power(x as f64)
    } else {
        improper_power(f32_to_f64_with_nan(x))
    }
}

#[cold]
fn improper_power(x: f64) -> f64
    ensures { result ≡ improper_power x }
{
    if f64::NEG_INFINITY < x && x < 0.0 {
        f64::NAN
    } else {
        x * x
    }
}

#[inline(always)]
fn positive_power(x: f64) -> f64
    ensures { result ≡ positive_power x }
{
    root(x, near_root(x)) * lean(x)
}

// The cube root within four hundredths: a third of the bits has a third of the exponent.
#[inline(always)]
fn near_root(x: f64) -> f64
    ensures { result ≡ near_root x }
{
    f64_from_bits_with_nan(f64_to_bits_with_nan(x) / 3 + 0x2a9f_7123_0000_0000)
}

// The cube root by a number near it: that times the power -1/3 of how its cube stands to `x`.
#[inline(always)]
fn root(x: f64, near: f64) -> f64
    ensures { result ≡ root x near }
{
    near * root_series(near * near * (near / x))
}

// The power -1/3 of a number within a tenth of 1.
#[inline(always)]
fn root_series(z: f64) -> f64
    ensures { result ≡ root_series z }
{
    let first = cubic(
        2.111567277717868,
        -3.18088498719221,
        4.5601018264047415,
        -4.267848270918184,
        z,
    );
    let last = quadratic(
        2.4671635106135428,
        -0.8028349030763996,
        0.11273554644403548,
        z,
    );
    sextic(first, last, z)
}

// The power by which 0.3333333 lies below a third, -2e-8, by a logarithm that goes straight from each
// power of two to the next, as the bits do.
#[inline(always)]
fn lean(x: f64) -> f64
    ensures { result ≡ lean x }
{
    let high = (f64_to_bits_with_nan(x) / 0x1_0000_0000) as u32;
    1.000014087751714 - high as f64 * 1.3133618505585699e-14
}

ghost use Rattle.std.specs.Prelude.{◌≡◌, ◌+◌, ◌-◌, ◌*◌, ◌%◌, ◌^◌, ◌<◌, ◌≤◌, T, from_bits};
ghost use Rattle.std.specs.Float.{binary64};
ghost use Rattle.std.specs.Float.Ieee.Nearest.{closest};
ghost use Rattle.maths.specs.Series.{narrow};

use std::num::{f64_to_bits_with_nan, nearest_f64_to_f32_with_nan};

const SIGN: u64 = 0x8000_0000_0000_0000;

// The pattern of 2^-126, and that half way from the largest `f32` to 2^128.
const LOW: u64 = 0x3810_0000_0000_0000;

const HIGH: u64 = 0x47ef_ffff_f000_0000;

// What an exponent's field is more than in an `f32`.
const EXPONENTS: u64 = 896 * 0x80_0000;

/// The `f32` nearest to `y`, ties to even. It is quick where that is normal, by the pattern.
#[tactic(auto, using(crate::proofs::Narrowing::of_pattern))]
pub(crate) fn nearest(y: f64) -> f32
    ensures { result ≡ narrow y }
{
    let bits = f64_to_bits_with_nan(y);
    if is_normal(bits % SIGN) {
        nearest_normal(bits)
    } else {
        nearest_f64_to_f32_with_nan(y)
    }
}

fn is_normal(size: u64) -> bool
    ensures { T result → (0x3810_0000_0000_0000 ≤ size) × (size < 0x47ef_ffff_f000_0000) }
{
    LOW <= size && size < HIGH
}

// A pattern is the exponent and then the digits, so a digit too many is carried into the exponent.
#[tactic(auto, using(crate::proofs::Narrowing::narrows, crate::proofs::Narrowing::is_number))]
fn nearest_normal(bits: u64) -> f32
    requires { (0x3810_0000_0000_0000 ≤ bits % 2 ^ 63) × (bits % 2 ^ 63 < 0x47ef_ffff_f000_0000) }
    ensures { result ≡ narrow (from_bits binary64 bits) }
{
    let size = digits_kept(bits % SIGN) - EXPONENTS;
    f32::from_bits((size + bits / SIGN * 0x8000_0000) as u32)
}

// A pattern without its last 29 digits, rounded, and at a tie to the even number.
fn digits_kept(size: u64) -> u64
    requires { size < 2 ^ 63 }
    ensures { result ≡ closest size (2 ^ 29) }
{
    (size + 0x0fff_ffff + size / 0x2000_0000 % 2) / 0x2000_0000
}

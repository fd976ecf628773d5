ghost use Rattle.std.specs.Prelude.{◌≡◌, from_bits, to_bits};
ghost use Rattle.std.specs.Float.{binary32, nan};

use std::num::{f32_from_bits_with_nan, f32_to_bits_with_nan};

/// The bits by which a number is written; every NaN has the bits 7FC00000, which `to_bits` leaves open.
#[tactic(auto, using(crate::proofs::Bits::nan_bits))]
pub fn bits_of(x: f32) -> u32
    ensures value { result ≡ to_bits binary32 x }
    ensures one_nan { x ≡ nan → result ≡ 0x7FC0_0000 }
{
    f32_to_bits_with_nan(x)
}

/// The number that the bits stand for; each of the NaN patterns stands for NaN, as `from_bits` does not
/// say.
pub fn float_of(bits: u32) -> f32
    ensures { result ≡ from_bits binary32 bits }
{
    f32_from_bits_with_nan(bits)
}

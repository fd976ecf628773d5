//! The root, for a program in another language to call.
#![tactic(auto)]

ghost use Rattle.std.specs.Prelude.{◌≡◌, from_bits, to_bits};
ghost use Rattle.std.specs.Float.{binary32};
ghost use Rattle.std.specs.Float as Floats;

use std::num::{f32_from_bits_with_nan, f32_to_bits_with_nan};

/// The root of `numbers`. Another language sees the bits of a NaN, so each is 7FC00000, whatever the
/// machine makes of it.
#[tactic(auto, using(crate::proofs::Nans::same_nan))]
#[unsafe(no_mangle)]
pub extern "C" fn numbers_sqrt(x: f32) -> f32
    ensures { result ≡ Floats.sqrt binary32 x }
{
    let root = numbers::sqrt(x);
    if root.is_nan() {
        by_one_pattern(root)
    } else {
        root
    }
}

// Called for a NaN alone: a root that is a number waits for no choice.
#[cold]
#[inline(never)]
fn by_one_pattern(x: f32) -> f32
    ensures { result ≡ from_bits binary32 (to_bits binary32 x) }
{
    f32_from_bits_with_nan(f32_to_bits_with_nan(x))
}

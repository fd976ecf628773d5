ghost use Rattle.std.specs.Prelude.{T, from_bits};
ghost use Rattle.std.specs.Float.{binary32};
ghost use Rattle.std.specs.Float.Ieee.{le};

use crate::nib::Nib;

mod make;

/// A nib whose radius is never NaN nor below half of 0.01.
#[derive(Clone, Copy)]
pub struct Pen {
    nib: Nib,
    // A model would be longer than this field, and would show clauses the same nib.
    ghost least: { T (le (from_bits binary32 0x3BA3_D70A) nib.radius) },
}

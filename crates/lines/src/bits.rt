ghost use Rattle.std.specs.Prelude.{◌∷◌, ◌++◌, Some};
ghost use Rattle.lines.specs.Text.{bits};

use job::float::bits_of;
use path::geometry::Point;
use std::fmt;

/// A number by the eight hexadecimal digits of its bits.
#[derive(Clone, Copy, PartialEq)]
pub struct Bits(pub f32);

/// A point by its two numbers, with a blank between.
#[derive(Clone, Copy, PartialEq)]
pub struct PointBits(pub Point);

impl fmt::Display for Bits {
    ghost output = { λ b. Some (bits b.0) };

    #[tactic(auto, using(crate::proofs::Hex::hex_padded))]
    fn fmt<W: fmt::Write>(&self, f: &mut fmt::Formatter<W>) -> fmt::Result {
        let n = bits_of(self.0);
        write!(f, "{n:08X}")
    }
}

impl fmt::Display for PointBits {
    ghost output = { λ p. Some (bits p.0.x ++ (32 ∷ bits p.0.y)) };

    fn fmt<W: fmt::Write>(&self, f: &mut fmt::Formatter<W>) -> fmt::Result {
        let x = Bits(self.0.x);
        let y = Bits(self.0.y);
        write!(f, "{x} {y}")
    }
}

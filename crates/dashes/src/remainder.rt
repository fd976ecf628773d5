//! The remainder by whole numbers, in steps that are exact: a compiler may call C for `%` on floats, by
//! a version of the function that not every C library has.
ghost use Rattle.std.specs.Prelude.{◌≡◌, ◌+◌, ◌-◌, ◌*◌, ◌%◌, ◌^◌, ◌<◌, ◌≤◌, IsTrue, false, from_bits};
ghost use Rattle.std.specs.Float.{binary32};
ghost use Rattle.std.specs.Float.Ieee.{le};
ghost use Rattle.numbers.specs.Arithmetic.{zero};
ghost use Rattle.dashes.specs.Patterns.{rest};
ghost use Rattle.dashes.specs.Remainders.{positive, HasDigits};

use std::num::{f32_from_bits_with_nan, f32_to_bits_with_nan, nearest_u32_to_f32};

// The number digits * 2^power / 2^149.
#[derive(Clone, Copy)]
struct Digits {
    digits: u32,
    power: u32,
    ghost within: { (0 < digits) × (digits < 2 ^ 24) },
    ghost leading: { 0 < power → 2 ^ 23 ≤ digits },
    ghost below: { power < 254 },
}

impl Digits {
    // The pattern is the power and one more, and the digits below the leading one.
    #[tactic(auto, using(crate::proofs::Digits::normal_digits))]
    fn normal(bits: u32) -> Digits
        requires { (2 ^ 23 ≤ bits) × (bits < 255 * 2 ^ 23) }
        ensures { HasDigits (from_bits binary32 bits) result.digits result.power }
    {
        Digits {
            digits: bits % 0x80_0000 + 0x80_0000,
            power: bits / 0x80_0000 - 1,
        }
    }

    // The pattern is how many of the smallest numbers it is.
    #[tactic(auto, using(crate::proofs::Digits::subnormal_digits))]
    fn subnormal(bits: u32) -> Digits
        requires { (0 < bits) × (bits < 2 ^ 23) }
        ensures { HasDigits (from_bits binary32 bits) result.digits result.power }
    {
        Digits {
            digits: bits,
            power: 0,
        }
    }

    fn of_bits(bits: u32) -> Digits
        requires { (0 < bits) × (bits < 255 * 2 ^ 23) }
        ensures { HasDigits (from_bits binary32 bits) result.digits result.power }
    {
        if bits < 0x80_0000 {
            Digits::subnormal(bits)
        } else {
            Digits::normal(bits)
        }
    }

    fn new(x: f32) -> Digits
        requires { IsTrue (positive x) }
        ensures { HasDigits x result.digits result.power }
    {
        Digits::of_bits(f32_to_bits_with_nan(x))
    }

    // The digits of what is left without whole `by`.
    fn rest(self, by: Digits) -> u32
        requires { by.power ≤ self.power }
        ensures { result ≡ self.digits * 2 ^ (self.power - by.power) % by.digits }
    {
        let mut rest = self.digits % by.digits;
        for _ in 0..self.power - by.power {
            rest = rest * 2 % by.digits;
        }
        rest
    }
}

// 2^power / 2^149.
#[tactic(auto, using(crate::proofs::Digits::low_power, crate::proofs::Digits::high_power))]
fn two_to(power: u32) -> f32
    requires { power < 254 }
    ensures { HasDigits result 1 power }
{
    if power < 23 {
        f32_from_bits_with_nan(1 << power)
    } else {
        f32_from_bits_with_nan((power - 22) * 0x80_0000)
    }
}

fn positive_remainder(x: f32, y: f32) -> f32
    requires first { IsTrue (positive x) }
    requires second { IsTrue (positive y) }
    ensures { result ≡ rest x y }
{
    let (a, b) = (Digits::new(x), Digits::new(y));
    if a.power < b.power {
        1.0 * x
    } else {
        nearest_u32_to_f32(a.rest(b)) * two_to(b.power)
    }
}

// What is left of x without whole y, where x is above 0, or NaN.
pub(crate) fn remainder(x: f32, y: f32) -> f32
    requires { le x zero ≡ false }
    ensures { result ≡ rest x y }
{
    let size = y.abs();
    if !(x < f32::INFINITY) {
        f32::NAN
    } else if !(size > 0.0) {
        f32::NAN
    } else if size < f32::INFINITY {
        positive_remainder(x, size)
    } else {
        x
    }
}

ghost use Rattle.std.specs.Prelude.{◌≡◌};
ghost use Rattle.std.specs.Float.{binary64};
ghost use Rattle.std.specs.Float.Ieee.{rem};
ghost use Rattle.maths.specs.Wide.{◌⊗◌, wide};
ghost use Rattle.maths.specs.Circle.{near, whole_turns, near_turned, far_turned, turned, sine_series, sine_of, wide_sine, wide_cosine, wide_tangent};

use crate::series::polynomials::{cubic, quadratic, sextic};
use std::num::f32_to_f64_with_nan;

/// The sine of `x` radians.
#[inline(always)]
pub(crate) fn sine(x: f32) -> f64
    ensures { result ≡ wide_sine x }
{
    sine_of(turned(x, 0.0))
}

/// The cosine of `x` radians: the sine a quarter turn on.
#[inline(always)]
pub(crate) fn cosine(x: f32) -> f64
    ensures { result ≡ wide_cosine x }
{
    sine_of(turned(x, -0.5))
}

/// The tangent of `x` radians.
#[inline(always)]
pub(crate) fn tangent(x: f32) -> f64
    ensures { result ≡ wide_tangent x }
{
    sine(x) / cosine(x)
}

// Half turns from the nearest whole turn, of `x` radians less so many half turns.
#[tactic(auto, using(crate::proofs::Specials::near_is_number))]
#[inline(always)]
fn turned(x: f32, back: f64) -> f64
    ensures { result ≡ turned x back }
{
    if near(x) {
        near_turned(x as f64, back)
    } else {
        far_turned(f32_to_f64_with_nan(x), back)
    }
}

// Within 128, both ways.
#[inline(always)]
fn near(x: f32) -> bool
    ensures { result ≡ near x }
{
    x * x < 16384.0
}

// By one product with 1/π.
#[inline(always)]
fn near_turned(x: f64, back: f64) -> f64
    ensures { result ≡ near_turned x back }
{
    let half_turns = x * 0.3183098861837907 - back;
    half_turns - whole_turns(half_turns)
}

// 1/π stands in eight parts of 24 bits, so each product with an `f32` is exact, and whole turns leave
// it exactly: that serves every finite `f32`.
#[cold]
#[inline(never)]
fn far_turned(x: f64, back: f64) -> f64
    ensures { result ≡ far_turned x back }
{
    // eight names, since the parts are added up twice, and the second time from the middle
    let a = piece(x, 0.31830987334251404) - back;
    let b = piece(x, 1.2841276486597053e-08);
    let c = piece(x, 1.4685476074668795e-16);
    let d = piece(x, 1.6271897000866228e-23);
    let e = piece(x, 6.0448068544142686e-30);
    let f = piece(x, 2.8337783978700357e-37);
    let g = piece(x, 1.3102015556048607e-44);
    let h = piece(x, 3.526978840440314e-52);
    let whole = whole_turns(a + b + c + d + e + f + g + h);
    a - whole + b + c + d + e + f + g + h
}

// The nearest even number: the first sum lies where floats are 2 apart.
#[inline(always)]
fn whole_turns(half_turns: f64) -> f64
    ensures { result ≡ whole_turns half_turns }
{
    half_turns + 13510798882111488.0 - 13510798882111488.0
}

// A part of `x` in half turns, without two whole turns.
fn piece(x: f64, part: f64) -> f64
    ensures { result ≡ rem binary64 (x ⊗ part) (wide 0x4010_0000_0000_0000) }
{
    rest_of_four(x * part)
}

// `t % 4.0`, which has the sign of `t`, by steps that are exact: a compiler may call C for `%`, by a
// version of the function that not every C library has.
#[tactic(auto, using(crate::proofs::Remainders::rest_of_small, crate::proofs::Remainders::rest_of_negative, crate::proofs::Remainders::rest_of_positive))]
fn rest_of_four(t: f64) -> f64
    ensures { result ≡ rem binary64 t (wide 0x4010_0000_0000_0000) }
{
    let size = t.abs();
    if size < 4.0 {
        t * 1.0
    } else {
        let rest = size - (size * 0.25).trunc() * 4.0;
        if t < 0.0 { -rest } else { rest }
    }
}

// The sine of at most one half turn, both ways: its zeros are factors.
#[inline(always)]
fn sine_of(r: f64) -> f64
    ensures { result ≡ sine_of r }
{
    r * (1.0 - r * r) * sine_series(r * r)
}

// The sine over r (1 - r^2), by z = r^2.
#[inline(always)]
fn sine_series(z: f64) -> f64
    ensures { result ≡ sine_series z }
{
    let first = cubic(
        3.141592653472089,
        -2.026120115877597,
        0.5240437544129178,
        -0.07521970563347023,
        z,
    );
    let last = quadratic(
        0.006922758424944513,
        -0.00044155913396423636,
        1.8541188828896344e-05,
        z,
    );
    sextic(first, last, z)
}

//! Steps on `f32` numbers whose answers are fixed to the last bit: the root, the ceiling, the
//! square and the clamp.
#![tactic(auto)]

ghost use Rattle.std.specs.Prelude.{◌≡◌, T, Float};
ghost use Rattle.std.specs.Float.Ieee as Ieee;
ghost use Rattle.std.specs.Float.{binary32};
ghost use Rattle.std.specs.Float.Ieee.{fits};
ghost use Rattle.std.specs.Float as Floats;
ghost use Rattle.numbers.specs.Roots.{NearestRoot};
ghost use Rattle.numbers.specs.Steps.{kept_within, Ceiling};

/// The `f32` nearest to the root of `x`, ties to even.
#[tactic(auto, using(crate::proofs::Rooted::root_is_near, crate::proofs::Rooted::one_root))]
pub fn sqrt(x: f32) -> f32
    ensures value { result ≡ Floats.sqrt binary32 x }
    ensures nearest { NearestRoot x result }
    ensures only { (s : Float) → T (fits binary32 s) → NearestRoot x s → s ≡ result }
{
    x.sqrt()
}

/// `x`, or the bound that it passes; a NaN stays. The library's `clamp` asks its caller for bounds in
/// order.
pub fn clamp(x: f32, low: f32, high: f32) -> f32
    ensures { result ≡ kept_within x low high }
{
    if x < low {
        low
    } else if x > high {
        high
    } else {
        x
    }
}

/// One product, rounded once.
pub fn square(x: f32) -> f32
    ensures { result ≡ Ieee.mul binary32 x x }
{
    x * x
}

/// The least whole number that is not below `x`; -0.5 gives -0.0.
#[tactic(auto, using(crate::proofs::Wholes::ceiling_is))]
pub fn ceil(x: f32) -> f32
    ensures value { result ≡ Floats.ceil binary32 x }
    ensures least { Ceiling x result }
{
    x.ceil()
}

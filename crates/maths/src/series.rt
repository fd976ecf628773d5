ghost use Rattle.std.specs.Prelude.{◌≡◌, refl, Float};
ghost use Rattle.maths.specs.Series.{series_sine, series_cosine, series_tangent, series_arc, series_power, series, narrow, Special};
ghost use Rattle.maths.specs.Angles.{kept_angle, restricted_angle};
ghost use Rattle.maths.specs.Functions.{restricted};
ghost use Rattle.maths.specs.Narrow.{again};

use crate::host::{Function, MathsHost};
use std::num::f32_to_f64_with_nan;

pub(crate) mod arcs;
pub(crate) mod circle;
mod narrowing;
pub(crate) mod polynomials;
pub(crate) mod powers;

/// A host that works the functions out by polynomials, in `f64`, and rounds once at the end. Wherever
/// it was measured, an answer is at most one unit in the last place from Rust's.
#[derive(Clone, Copy)]
pub struct SeriesHost;

impl SeriesHost {
    /// The host, and what its functions are at 0, 1, the infinities, NaN and below 0.
    pub fn new() -> SeriesHost
        ensures { Special }
    {
        special_stands();
        SeriesHost
    }
}

#[tactic(auto, using(crate::proofs::Specials::special))]
fn special_stands()
    ensures { Special }
{}

impl MathsHost for SeriesHost {
    ghost acts = { record { functions = λ _. restricted series; asked = λ s _ _. s } };

    ghost same = { λ s f x. refl };

    ghost ranged = { λ s x. restricted_angle series x (kept_angle _) };

    ghost narrow = { λ s. again series };

    #[tactic(auto, using(crate::proofs::Alike::asked_within))]
    #[inline(always)]
    // A match, since a question names its function, as a row of a table does.
    fn ask(&mut self, f: Function, x: f32) -> f32 {
        match f {
            Function::Sine => sine(x),
            Function::Cosine => cosine(x),
            Function::ArcCosine => arc_cosine(x),
            Function::Tangent => tangent(x),
            Function::Power => power(x),
        }
    }
}

// At 0, which drawings ask most, the answer is known.
#[tactic(auto, using(crate::proofs::Specials::sine_of_zeros))]
#[inline(always)]
fn sine(x: f32) -> f32
    ensures { result ≡ series_sine x }
{
    if x == 0.0 {
        x
    } else {
        narrowing::nearest(circle::sine(x))
    }
}

#[tactic(auto, using(crate::proofs::Specials::cosine_of_zeros))]
#[inline(always)]
fn cosine(x: f32) -> f32
    ensures { result ≡ series_cosine x }
{
    if x == 0.0 {
        1.0
    } else {
        narrowing::nearest(circle::cosine(x))
    }
}

#[inline(always)]
fn tangent(x: f32) -> f32
    ensures { result ≡ series_tangent x }
{
    narrowing::nearest(circle::tangent(x))
}

#[inline(always)]
fn arc_cosine(x: f32) -> f32
    ensures { result ≡ series_arc x }
{
    let angle = arcs::arc_cosine(f32_to_f64_with_nan(x));
    arcs::kept(narrowing::nearest(angle))
}

#[inline(always)]
fn power(x: f32) -> f32
    ensures { result ≡ series_power x }
{
    narrowing::nearest(powers::power(x))
}

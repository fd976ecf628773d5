ghost use Rattle.std.specs.Prelude.{◌≡◌, [], ◌∷◌, Float, Some};
ghost use Rattle.std.specs.Float.{nan};
ghost use Rattle.maths.specs.declared.host.Function.{Function};
ghost use Rattle.maths.specs.declared.host.Function.TheVariants.{Sine, Cosine, ArcCosine, Tangent, Power};
ghost use Rattle.maths.specs.Functions.{HostActs, apply, numbered, function_name, in_range, Angle, restricted, AlikeAreEqual};

use std::fmt;

/// The functions that a maths host answers, each from `f32` to `f32`. The power is the one with the
/// exponent 0.3333333, Rust's `powf(0.3333333)`.
#[derive(Clone, Copy, PartialEq, Eq)]
pub enum Function {
    Sine = 1,
    Cosine = 2,
    ArcCosine = 3,
    Tangent = 4,
    Power = 5,
}

impl Function {
    /// The five, by their numbers. Hosts that answer alike at each of them, on every `f32`, have the
    /// same functions as far as a program can ask.
    pub fn all() -> [Function; 5]
        ensures items { result ≡ Sine ∷ Cosine ∷ ArcCosine ∷ Tangent ∷ Power ∷ [] }
        ensures alike { AlikeAreEqual }
    {
        alike_stands();
        [
            Self::Sine,
            Self::Cosine,
            Self::ArcCosine,
            Self::Tangent,
            Self::Power,
        ]
    }
}

impl From<Function> for u8 {
    ghost from_gives = { λ f n. n ≡ numbered f };

    fn from(f: Function) -> u8 {
        f as u8
    }
}

impl fmt::Display for Function {
    ghost output = { λ f. Some (function_name f) };

    fn fmt<W: fmt::Write>(&self, out: &mut fmt::Formatter<W>) -> fmt::Result {
        out.write_str(match self {
            Function::Sine => "sine",
            Function::Cosine => "cosine",
            Function::ArcCosine => "arc cosine",
            Function::Tangent => "tangent",
            Function::Power => "power",
        })
    }
}

#[tactic(auto, using(crate::proofs::Alike::alike_are_equal))]
fn alike_stands()
    ensures { AlikeAreEqual }
{}

/// A maths host answers five functions, and means them. A question may alter a host's notes and
/// never its functions. An arc cosine is NaN or lies from 0 to 3.1415927.
///
/// The functions are on floats with one NaN, so none of them tells one NaN from another. They are of
/// `f32` alone, so hosts that answer alike on every `f32` have the same functions.
///
/// What asks a host says what it answers and what the host is afterwards, each by a definition of its
/// own, so a type has no fact of both to hold.
pub trait MathsHost {
    ghost acts: { HostActs Self };

    /// What a function answers; the other methods ask by it.
    fn ask(&mut self, f: Function, x: f32) -> f32
        ensures answer { result ≡ apply (acts.functions self.old) f x }
        ensures after { self.new ≡ acts.asked self.old f x };

    // Five methods that differ in a constant: the port keeps the Rust's names.
    fn sin(&mut self, x: f32) -> f32
        ensures answer { result ≡ (acts.functions self.old).sine x }
        ensures after { self.new ≡ acts.asked self.old Sine x }
    {
        self.ask(Function::Sine, x)
    }

    fn cos(&mut self, x: f32) -> f32
        ensures answer { result ≡ (acts.functions self.old).cosine x }
        ensures after { self.new ≡ acts.asked self.old Cosine x }
    {
        self.ask(Function::Cosine, x)
    }

    fn acos(&mut self, x: f32) -> f32
        ensures answer { result ≡ (acts.functions self.old).arc_cosine x }
        ensures after { self.new ≡ acts.asked self.old ArcCosine x }
    {
        self.ask(Function::ArcCosine, x)
    }

    fn tan(&mut self, x: f32) -> f32
        ensures answer { result ≡ (acts.functions self.old).tangent x }
        ensures after { self.new ≡ acts.asked self.old Tangent x }
    {
        self.ask(Function::Tangent, x)
    }

    /// The power with the exponent 0.3333333.
    fn powf_third(&mut self, x: f32) -> f32
        ensures answer { result ≡ (acts.functions self.old).power x }
        ensures after { self.new ≡ acts.asked self.old Power x }
    {
        self.ask(Function::Power, x)
    }

    ghost same: { (s : Self) (f : Function) (x : Float) → acts.functions (acts.asked s f x) ≡ acts.functions s };

    ghost ranged: { (s : Self) (x : Float) → Angle ((acts.functions s).arc_cosine x) };

    // the functions are of f32: at any other float they are NaN
    ghost narrow: { (s : Self) → restricted (acts.functions s) ≡ acts.functions s };
}

/// 3.1415927, the greatest arc cosine.
pub(crate) const HALF_TURN: f32 = 3.1415927;

/// Whether a number may be an arc cosine.
pub(crate) fn in_range(y: f32) -> bool
    ensures { result ≡ in_range y }
{
    (0.0 <= y) & (y <= HALF_TURN)
}

#[tactic(auto, using(numbers::proofs::Patterns::nan_is))]
pub(crate) fn not_a_number() -> f32
    ensures { result ≡ nan }
{
    f32::NAN
}

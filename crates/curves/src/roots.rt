ghost use Rattle.std.specs.Prelude.{◌≡◌};
ghost use Rattle.maths.specs.Questions.{all_asked};
ghost use Rattle.maths.specs.declared.host.Function.TheVariants.{Cosine, ArcCosine};
ghost use Rattle.numbers.specs.Arithmetic.{◌⊘◌};
ghost use Rattle.curves.specs.Curves.{three};
ghost use Rattle.curves.specs.Ranges.{RootsWithin, RootsRise};
ghost use Rattle.curves.specs.Roots.{saturated, reduced, turned, swapped, sorted, distinct, trisected, three_questions, cosine_asked, power_asked, from_power, has_three_roots, only_root, one_question, roots_of, questions_of, roots, questions};

use lists::fixed::FixedList;
use maths::host::MathsHost;
use numbers::{clamp, sqrt};

/// One to three roots, in order; the places after them are 0.
pub type Roots = FixedList<f32, 3>;

// A cubic by what its roots are worked out from.
#[derive(Clone, Copy)]
struct Reduced {
    a: f32,
    q: f32,
    r: f32,
}

/// The roots of the cubic with these coefficients, highest first, each kept within 0 and 1.
pub fn solve<K: MathsHost>(coeff: [f32; 4], host: &mut K) -> Roots
    ensures answer { result ≡ roots (K.acts.functions host.old) coeff }
    ensures host { host.new ≡ all_asked K.acts.asked host.old (questions (K.acts.functions host.old) coeff) }
    ensures within { RootsWithin result }
    ensures rising { RootsRise result }
{
    Reduced::new(coeff).roots(host)
}

impl Reduced {
    // The cubic with these coefficients, highest first.
    fn new(coeff: [f32; 4]) -> Reduced
        ensures { result ≡ reduced coeff }
    {
        let [cubed, squared, first, rest] = coeff;
        let i = 1.0 / cubed;
        let a = squared * i;
        let b = first * i;
        let c = rest * i;
        Reduced {
            a,
            q: (a * a - b * 3.0) / 9.0,
            r: (2.0 * a * a * a - 9.0 * a * b + 27.0 * c) / 54.0,
        }
    }

    fn roots<K: MathsHost>(self, host: &mut K) -> Roots
        ensures answer { result ≡ roots_of (K.acts.functions host.old) self }
        ensures host { host.new ≡ all_asked K.acts.asked host.old (questions_of (K.acts.functions host.old) self) }
    {
        if self.has_three_roots() {
            self.three_roots(host)
        } else {
            self.one_root(host)
        }
    }

    fn has_three_roots(self) -> bool
        ensures { result ≡ has_three_roots self }
    {
        self.r * self.r - self.q * self.q * self.q < 0.0
    }

    // The root at a third of an angle. As with the next, that the functions stay is said for the question
    // that follows; the law says it of one question at a time.
    fn turned<K: MathsHost>(self, angle: f32, host: &mut K) -> f32
        ensures answer { result ≡ turned (K.acts.functions host.old) self angle }
        ensures host { host.new ≡ K.acts.asked host.old Cosine (angle ⊘ three) }
        ensures same { K.acts.functions host.new ≡ K.acts.functions host.old }
    {
        let cosine = host.cos(angle / 3.0);
        satf32(-2.0 * sqrt(self.q) * cosine - self.a / 3.0)
    }

    // The angle at whose thirds the three roots are.
    fn theta<K: MathsHost>(self, host: &mut K) -> f32
        ensures answer { result ≡ (K.acts.functions host.old).arc_cosine (cosine_asked self) }
        ensures host { host.new ≡ K.acts.asked host.old ArcCosine (cosine_asked self) }
        ensures same { K.acts.functions host.new ≡ K.acts.functions host.old }
    {
        host.acos(self.cosine())
    }

    fn three_roots<K: MathsHost>(self, host: &mut K) -> Roots
        ensures answer { result ≡ trisected (K.acts.functions host.old) self }
        ensures host { host.new ≡ all_asked K.acts.asked host.old (three_questions (K.acts.functions host.old) self) }
    {
        let theta = self.theta(host);
        let x = self.turned(theta, host);
        let y = self.turned(theta + 6.2831855, host);
        let z = self.turned(theta - 6.2831855, host);
        distinct(sort([x, y, z]))
    }

    fn one_root<K: MathsHost>(self, host: &mut K) -> Roots
        ensures answer { result ≡ only_root (K.acts.functions host.old) self }
        ensures host { host.new ≡ all_asked K.acts.asked host.old (one_question self) }
    {
        let size = host.powf_third(self.power_argument());
        FixedList::filled(0.0, &[self.from_power(size)])
    }

    fn power_argument(self) -> f32
        ensures { result ≡ power_asked self }
    {
        self.r.abs() + sqrt(self.r * self.r - self.q * self.q * self.q)
    }

    fn from_power(self, size: f32) -> f32
        ensures { result ≡ from_power self size }
    {
        let root = if self.r > 0.0 { -size } else { size };
        let root = if root != 0.0 {
            root + self.q / root
        } else {
            root
        };
        satf32(root - self.a / 3.0)
    }

    fn cosine(self) -> f32
        ensures { result ≡ cosine_asked self }
    {
        satf32(self.r / sqrt(self.q * self.q * self.q))
    }
}

fn satf32(x: f32) -> f32
    ensures { result ≡ saturated x }
{
    clamp(x, 0.0, 1.0)
}

// Two neighbours, swapped where the later is less.
fn swap(x: f32, y: f32) -> (f32, f32)
    ensures { result ≡ swapped x y }
{
    if y < x { (y, x) } else { (x, y) }
}

// The library's sorts promise an order only where all numbers have one; here NaN is swapped with nothing.
fn sort(ts: [f32; 3]) -> [f32; 3]
    ensures { result ≡ sorted ts }
{
    let [x, y, z] = ts;
    let (x, y) = swap(x, y);
    let (y, z) = swap(y, z);
    let (x, y) = swap(x, y);
    [x, y, z]
}

// Where the first two are equal the third goes with the second.
fn distinct(ts: [f32; 3]) -> Roots
    ensures { result ≡ distinct ts }
{
    let [x, y, z] = ts;
    if x == y {
        if z.is_nan() {
            FixedList::filled(0.0, &[x, z])
        } else {
            FixedList::filled(0.0, &[x])
        }
    } else if y == z {
        FixedList::filled(0.0, &[x, y])
    } else {
        FixedList::filled(0.0, &ts)
    }
}

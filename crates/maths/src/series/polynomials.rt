ghost use Rattle.std.specs.Prelude.{◌≡◌};
ghost use Rattle.maths.specs.Wide.{cubic, quadratic, sextic};

// The order of the sums lets a machine work out much of them side by side.

/// a + b z + c z^2 + d z^3.
#[inline(always)]
pub(crate) fn cubic(a: f64, b: f64, c: f64, d: f64, z: f64) -> f64
    ensures { result ≡ cubic a b c d z }
{
    a + z * b + z * z * (c + z * d)
}

/// a + b z + c z^2.
#[inline(always)]
pub(crate) fn quadratic(a: f64, b: f64, c: f64, z: f64) -> f64
    ensures { result ≡ quadratic a b c z }
{
    a + z * b + z * z * c
}

/// A polynomial with seven terms, by the first four of them and by the last three over z^4.
#[inline(always)]
pub(crate) fn sextic(first: f64, last: f64, z: f64) -> f64
    ensures { result ≡ sextic first last z }
{
    first + z * z * (z * z) * last
}

//! The real roots of a monic quadratic: quadratic_real_monic and quadratic_real_monic_computed of
//! shared/polynomial.rs.
ghost use Rattle.std.specs.Prelude.{◌≡◌};
ghost use Rattle.polynomial.specs.Quadratic.{double_root, quadratic_pair};
ghost use Rattle.polynomial.specs.Quadratic.{quadratic_real_monic_computed, quadratic_real_monic};

use crate::Roots;
use ieee754::abs::abs;
use ieee754::copysign::copysign;
use ieee754::fma_square::fma_square;
use ieee754::is_finite::is_finite;
use ieee754::max::max;
use ieee754::sqrt::sqrt;

/// Stable real roots of x^2 + b*x + c = 0.
#[tactic(auto, unfolding(crate::specs::Quadratic::quadratic_real_monic))]
pub fn quadratic_real_monic(b: f64, c: f64) -> Roots
    ensures { result ≡ (quadratic_real_monic b c).value }
{
    quadratic_real_monic_computed(b, c, abs(c))
}

// The same for a constant term formed by arithmetic whose rounding error scales with `c_scale`,
// rather than with |c|.
#[tactic(auto, unfolding(crate::specs::Quadratic::quadratic_real_monic_computed))]
fn quadratic_real_monic_computed(b: f64, c: f64, c_scale: f64) -> Roots
    ensures { result ≡ (quadratic_real_monic_computed b c c_scale).value }
{
    if !is_finite(b) || !is_finite(c) {
        return Roots::Refused(4);
    }
    let discriminant = fma_square(b, -4.0 * c);
    let discriminant_scale = b * b + 4.0 * c_scale;
    let tolerance = 32.0 * f64::EPSILON * max(discriminant_scale, f64::MIN_POSITIVE);
    if discriminant < -tolerance || !is_finite(discriminant) {
        return Roots::Refused(5);
    }
    quadratic_pair(b, c, discriminant)
}

// A root that counts twice, by the discriminant as computed.
#[tactic(auto, unfolding(crate::specs::Quadratic::double_root))]
fn double_root(root: f64, computed: f64) -> Roots
    ensures { result ≡ double_root root computed }
{
    if computed < 0.0 {
        Roots::Lifted(root)
    } else {
        Roots::Double(root)
    }
}

// The roots by the discriminant as computed, which is in the band or above it: unsorted, the first
// away from zero.
#[tactic(auto, unfolding(crate::specs::Quadratic::quadratic_pair))]
fn quadratic_pair(b: f64, c: f64, computed: f64) -> Roots
    ensures { result ≡ (quadratic_pair b c computed).value }
{
    let discriminant = max(computed, 0.0);
    if discriminant == 0.0 {
        return double_root(-0.5 * b, computed);
    }
    let q = -0.5 * (b + copysign(sqrt(discriminant), b));
    if q == 0.0 {
        Roots::Two(0.0, 0.0)
    } else {
        Roots::Two(q, c / q)
    }
}

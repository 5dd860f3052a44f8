//! Cardano's formula: cardano_single_real of shared/polynomial.rs.
ghost use Rattle.std.specs.Prelude.{◌≡◌};
ghost use Rattle.cubic_parts.specs.Cardano.{cardano_single_real};

use crate::fast_cbrt::fast_cbrt;
use ieee754::copysign::copysign;
use ieee754::sqrt::sqrt;

/// The root of the depressed cubic x^3 + p*x + 2*half_q where it has one real root. The sign keeps
/// the argument of the cube root away from zero.
#[tactic(auto, unfolding(crate::specs::Cardano::cardano_single_real))]
pub fn cardano_single_real(p: f64, half_q: f64, discriminant: f64) -> f64
    ensures { result ≡ (cardano_single_real p half_q discriminant).value }
{
    let u = fast_cbrt(-half_q - copysign(sqrt(discriminant), half_q));
    u - p / (3.0 * u)
}

//! The square root of minus the second eigenvalue over the first, with either sign of which a null
//! vector is made: solve_ordered (lambdatwist.rs), from `let ratio_squared` on.
ghost use Rattle.std.specs.Prelude.{◌≡◌};
ghost use Rattle.depths.specs.RatioOf.{ratio_of};

use ieee754::is_finite::is_finite;
use ieee754::max::max;
use ieee754::sqrt::sqrt;

/// `None` where the ratio is not real.
#[tactic(auto, unfolding(crate::specs::RatioOf::ratio_of, crate::specs::RatioOf::is_not_real))]
pub fn ratio_of(first: f64, second: f64) -> Option<f64>
    ensures { result ≡ (ratio_of first second).value }
{
    let ratio_squared = -second / first;
    if !is_finite(ratio_squared) || ratio_squared < -f64::EPSILON * 64.0 {
        None
    } else {
        Some(sqrt(max(ratio_squared, 0.0)))
    }
}

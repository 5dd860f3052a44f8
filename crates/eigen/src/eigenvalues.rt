//! The two eigenvalues that are not known: the second part of eig_with_known_zero
//! (lambdatwist.rs).
ghost use Rattle.std.specs.Prelude.{◌≡◌};
ghost use Rattle.eigen.specs.EigenPair.{pair_coefficient, nonzero_pair, by_magnitude};
ghost use Rattle.eigen.specs.EigenPair.{eigenvalue_pair};

use ieee754::abs::abs;
use linalg::matrix3::Matrix3;
use polynomial::pair::{RootPair, pair_of};
use polynomial::quadratic::quadratic_real_monic;

#[tactic(auto, unfolding(crate::specs::EigenPair::pair_coefficient))]
pub fn pair_coefficient(m: Matrix3, off_diagonal_squared: f64) -> f64
    ensures { result ≡ (pair_coefficient m off_diagonal_squared).value }
{
    -off_diagonal_squared - m.m02 * m.m02 - m.m12 * m.m12 + m.m00 * (m.m11 + m.m22) + m.m11 * m.m22
}

#[tactic(auto, unfolding(crate::specs::EigenPair::nonzero_pair))]
pub fn nonzero_pair(pair: RootPair) -> Option<RootPair>
    ensures { result ≡ nonzero_pair pair }
{
    if pair.first == 0.0 || pair.second == 0.0 {
        None
    } else {
        Some(pair)
    }
}

/// The greater in magnitude first.
#[tactic(auto, unfolding(crate::specs::EigenPair::by_magnitude))]
pub fn by_magnitude(pair: RootPair) -> Option<RootPair>
    ensures { result ≡ by_magnitude pair }
{
    if abs(pair.first) < abs(pair.second) {
        return nonzero_pair(RootPair {
            first: pair.second,
            second: pair.first,
            lifted: pair.lifted,
        });
    }
    nonzero_pair(pair)
}

#[tactic(auto, unfolding(crate::specs::EigenPair::eigenvalue_pair))]
pub fn eigenvalue_pair(m: Matrix3, off_diagonal_squared: f64) -> Option<RootPair>
    ensures { result ≡ (eigenvalue_pair m off_diagonal_squared).value }
{
    let trace_coefficient = -m.trace();
    let pair_coefficient = pair_coefficient(m, off_diagonal_squared);
    let pair = pair_of(quadratic_real_monic(trace_coefficient, pair_coefficient))?;
    by_magnitude(pair)
}

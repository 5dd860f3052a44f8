//! The eigenvector of a nonzero eigenvalue: the closure `eigenvector` of eig_with_known_zero
//! (lambdatwist.rs), and what is computed before it for both values.
ghost use Rattle.std.specs.Prelude.{◌≡◌};
ghost use Rattle.eigen.specs.EigenvectorOf.{precompute, eigen_denominator, denominator_scale};
ghost use Rattle.eigen.specs.EigenvectorOf.{eigenvector_by_division, eigenvector_of};

use crate::row_crosses::eigenvector_from_row_crosses;
use ieee754::abs::abs;
use ieee754::is_finite::is_finite;
use ieee754::max::max;
use ieee754::sqrt::sqrt;
use linalg::matrix3::Matrix3;
use linalg::vector3::Vector3;

/// `square` is off_diagonal_squared and `product` is product00_11.
#[derive(Clone, Copy)]
pub struct Precomputed {
    pub square: f64,
    pub product: f64,
    pub precomputed0: f64,
    pub precomputed1: f64,
}

#[tactic(auto, unfolding(crate::specs::EigenvectorOf::precompute))]
pub fn precompute(m: Matrix3, off_diagonal_squared: f64) -> Precomputed
    ensures { result ≡ (precompute m off_diagonal_squared).value }
{
    Precomputed {
        square: off_diagonal_squared,
        product: -m.m00 * m.m11,
        precomputed0: m.m01 * m.m12 - m.m02 * m.m11,
        precomputed1: m.m01 * m.m02 - m.m00 * m.m12,
    }
}

#[tactic(auto, unfolding(crate::specs::EigenvectorOf::eigen_denominator))]
pub fn eigen_denominator(m: Matrix3, p: Precomputed, eigenvalue: f64) -> f64
    ensures { result ≡ (eigen_denominator m p eigenvalue).value }
{
    eigenvalue * (m.m00 + m.m11) + p.product - eigenvalue * eigenvalue + p.square
}

#[tactic(auto, unfolding(crate::specs::EigenvectorOf::denominator_scale))]
pub fn denominator_scale(m: Matrix3, p: Precomputed, eigenvalue: f64) -> f64
    ensures { result ≡ (denominator_scale m p eigenvalue).value }
{
    abs(eigenvalue * (m.m00 + m.m11)) + abs(p.product) + eigenvalue * eigenvalue + p.square
}

#[tactic(auto, unfolding(crate::specs::EigenvectorOf::eigenvector_by_division, crate::specs::EigenvectorOf::if_finite))]
pub fn eigenvector_by_division(
    m: Matrix3,
    p: Precomputed,
    eigenvalue: f64,
    denominator: f64,
) -> Option<Vector3>
    ensures { result ≡ (eigenvector_by_division m p eigenvalue denominator).value }
{
    let first = -(eigenvalue * m.m02 + p.precomputed0) / denominator;
    let second = -(eigenvalue * m.m12 + p.precomputed1) / denominator;
    let inverse_norm = 1.0 / sqrt(first * first + second * second + 1.0);
    let vector = Vector3 {
        x: first * inverse_norm,
        y: second * inverse_norm,
        z: inverse_norm,
    };
    vector.all_finite().then_some(vector)
}

#[tactic(auto, unfolding(crate::specs::EigenvectorOf::eigenvector_of))]
pub fn eigenvector(m: Matrix3, p: Precomputed, eigenvalue: f64) -> Option<Vector3>
    ensures { result ≡ (eigenvector_of m p eigenvalue).value }
{
    let denominator = eigen_denominator(m, p, eigenvalue);
    let scale = denominator_scale(m, p, eigenvalue);
    let limit = 64.0 * f64::EPSILON * max(scale, f64::MIN_POSITIVE);
    if abs(denominator) <= limit || !is_finite(denominator) {
        return eigenvector_from_row_crosses(m, eigenvalue);
    }
    eigenvector_by_division(m, p, eigenvalue, denominator)
}

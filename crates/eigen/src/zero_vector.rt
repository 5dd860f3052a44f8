//! The eigenvector of the known eigenvalue zero: the first part of eig_with_known_zero
//! (lambdatwist.rs). The solve asks only whether there is one.
ghost use Rattle.std.specs.Prelude.{◌≡◌, is_some};
ghost use Rattle.eigen.specs.ZeroVector.{zero_direction, zero_vector};

use crate::row_crosses::eigenvector_from_row_crosses;
use ieee754::sqrt::sqrt;
use linalg::matrix3::Matrix3;
use linalg::vector3::Vector3;

#[tactic(auto, unfolding(crate::specs::ZeroVector::zero_direction))]
pub fn zero_direction(m: Matrix3) -> Vector3
    ensures { result ≡ (zero_direction m).value }
{
    Vector3 {
        x: m.m01 * m.m12 - m.m02 * m.m11,
        y: m.m02 * m.m01 - m.m12 * m.m00,
        z: m.m11 * m.m00 - m.m01 * m.m01,
    }
}

#[tactic(auto, unfolding(crate::specs::ZeroVector::zero_vector))]
pub fn zero_vector(m: Matrix3) -> Option<Vector3>
    ensures { result ≡ (zero_vector m).value }
{
    let direction = zero_direction(m);
    let zero_norm_squared = direction.norm_squared();
    let matrix_scale = m.norm_squared();
    if zero_norm_squared <= 64.0 * f64::EPSILON * matrix_scale * matrix_scale {
        return eigenvector_from_row_crosses(m, 0.0);
    }
    Some(direction / sqrt(zero_norm_squared))
}

/// Whether there is a zero vector: zero_vector's test, without the square root and the division.
#[tactic(auto, unfolding(crate::specs::ZeroVector::zero_vector))]
pub fn has_zero_vector(m: Matrix3) -> bool
    ensures { result ≡ is_some (zero_vector m).value }
{
    let zero_norm_squared = zero_direction(m).norm_squared();
    let matrix_scale = m.norm_squared();
    if zero_norm_squared <= 64.0 * f64::EPSILON * matrix_scale * matrix_scale {
        eigenvector_from_row_crosses(m, 0.0).is_some()
    } else {
        true
    }
}

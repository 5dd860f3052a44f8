//! Whether a matrix has orthonormal columns within 1e-10 (has_near_orthonormal_columns of
//! pose/p3p/common.rs).
ghost use Rattle.std.specs.Prelude.{◌≡◌};
ghost use Rattle.p3p_common.specs.NearOrthonormal.{has_near_orthonormal_columns};

use ieee754::abs::abs;
use linalg::matrix3::Matrix3;

pub const NEAR_ROTATION_TOLERANCE: f64 = 1e-10;

#[tactic(auto, unfolding(crate::specs::NearOrthonormal::has_near_orthonormal_columns))]
pub fn has_near_orthonormal_columns(matrix: Matrix3) -> bool
    ensures { result ≡ (has_near_orthonormal_columns matrix).value }
{
    let first = matrix.column0();
    let second = matrix.column1();
    let third = matrix.column2();
    let error = abs(first.norm_squared() - 1.0)
        + abs(second.norm_squared() - 1.0)
        + abs(third.norm_squared() - 1.0)
        + abs(first.dot(second))
        + abs(first.dot(third))
        + abs(second.dot(third));
    error <= NEAR_ROTATION_TOLERANCE
}

//! The rotation near a matrix, by modified Gram-Schmidt on its first two columns
//! (project_to_rotation of pose/p3p/common.rs).
ghost use Rattle.std.specs.Prelude.{◌≡◌};
ghost use Rattle.p3p_common.specs.ProjectToRotation.{project_to_rotation};

use ieee754::sqrt::sqrt;
use linalg::matrix3::Matrix3;

#[tactic(auto, unfolding(crate::specs::ProjectToRotation::project_to_rotation))]
pub fn project_to_rotation(matrix: Matrix3) -> Option<Matrix3>
    ensures { result ≡ (project_to_rotation matrix).value }
{
    if !matrix.all_finite() {
        return None;
    }
    let first = matrix.column0();
    let first_norm = first.norm();
    if first_norm <= sqrt(f64::EPSILON) {
        return None;
    }
    let first = first / first_norm;
    let column1 = matrix.column1();
    let second = column1 - first * first.dot(column1);
    let second_norm = second.norm();
    if second_norm <= sqrt(f64::EPSILON) {
        return None;
    }
    let second = second / second_norm;
    let third = first.cross(second);
    Some(Matrix3::from_columns(first, second, third))
}

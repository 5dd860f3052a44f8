//! The longest cross product of two rows of matrix - eigenvalue, divided by its length:
//! eigenvector_from_row_crosses of lambdatwist.rs.
ghost use Rattle.std.specs.Prelude.{◌≡◌};
ghost use Rattle.eigen.specs.RowCrosses.{longer, unit_vector, eigenvector_from_row_crosses};

use ieee754::is_finite::is_finite;
use ieee754::total_cmp::total_cmp;
use linalg::matrix3::Matrix3;
use linalg::vector3::Vector3;
use std::cmp::Ordering;

/// The longer of two vectors, of equals the second: one step of max_by.
#[tactic(auto, unfolding(crate::specs::RowCrosses::longer, crate::specs::RowCrosses::last_greatest))]
pub fn longer(left: Vector3, right: Vector3) -> Vector3
    ensures { result ≡ (longer left right).value }
{
    match total_cmp(left.norm_squared(), right.norm_squared()) {
        Ordering::Less => right,
        Ordering::Equal => right,
        Ordering::Greater => left,
    }
}

#[tactic(auto, unfolding(crate::specs::RowCrosses::unit_vector))]
pub fn unit_vector(v: Vector3) -> Option<Vector3>
    ensures { result ≡ (unit_vector v).value }
{
    let norm = v.norm();
    (norm > f64::MIN_POSITIVE && is_finite(norm)).then_some(v / norm)
}

#[tactic(auto, unfolding(crate::specs::RowCrosses::eigenvector_from_row_crosses))]
pub fn eigenvector_from_row_crosses(m: Matrix3, eigenvalue: f64) -> Option<Vector3>
    ensures { result ≡ (eigenvector_from_row_crosses m eigenvalue).value }
{
    let row0 = Vector3 {
        x: m.m00 - eigenvalue,
        y: m.m01,
        z: m.m02,
    };
    let row1 = Vector3 {
        x: m.m10,
        y: m.m11 - eigenvalue,
        z: m.m12,
    };
    let row2 = Vector3 {
        x: m.m20,
        y: m.m21,
        z: m.m22 - eigenvalue,
    };
    let c01 = row0.cross(row1);
    let c02 = row0.cross(row2);
    let c12 = row1.cross(row2);
    unit_vector(longer(longer(c01, c02), c12))
}

//! The inverse of the matrix whose columns are two edges of the world's triangle and their cross
//! product (world_basis_inverse of pose/p3p/common.rs).
ghost use Rattle.std.specs.Prelude.{◌≡◌};
ghost use Rattle.p3p_common.specs.WorldBasisInverse.{world_basis_inverse, dual_basis};

use ieee754::is_finite::is_finite;
use ieee754::max::max;
use linalg::matrix3::Matrix3;
use linalg::vector3::Vector3;

/// The rows of the inverse: each edge's dual vector, then the normal's.
#[tactic(auto, unfolding(crate::specs::WorldBasisInverse::dual_basis))]
pub fn dual_basis(
    first_edge: Vector3,
    second_edge: Vector3,
    normal: Vector3,
    determinant: f64,
) -> Matrix3
    ensures { result ≡ (dual_basis first_edge second_edge normal determinant).value }
{
    let inverse_determinant = 1.0 / determinant;
    let dual_first = second_edge.cross(normal) * inverse_determinant;
    let dual_second = normal.cross(first_edge) * inverse_determinant;
    let dual_normal = normal * inverse_determinant;
    Matrix3::from_rows(dual_first, dual_second, dual_normal)
}

/// Nothing where the edges are near to parallel.
#[tactic(auto, unfolding(crate::specs::WorldBasisInverse::world_basis_inverse, crate::specs::WorldBasisInverse::is_singular))]
pub fn world_basis_inverse(first_edge: Vector3, second_edge: Vector3) -> Option<Matrix3>
    ensures { result ≡ (world_basis_inverse first_edge second_edge).value }
{
    let normal = first_edge.cross(second_edge);
    let determinant = normal.norm_squared();
    let geometry_scale_squared = max(first_edge.norm_squared(), second_edge.norm_squared());
    if !is_finite(determinant)
        || determinant <= 64.0 * f64::EPSILON * geometry_scale_squared * geometry_scale_squared
    {
        return None;
    }
    Some(dual_basis(first_edge, second_edge, normal, determinant))
}

//! The rotation that takes the world's edges to the camera's (rotation_from_edges of
//! pose/p3p/common.rs).
ghost use Rattle.std.specs.Prelude.{◌≡◌};
ghost use Rattle.p3p_common.specs.RotationFromEdges.{rotation_from_edges};

use linalg::matrix3::Matrix3;
use linalg::vector3::Vector3;

#[tactic(auto, unfolding(crate::specs::RotationFromEdges::rotation_from_edges))]
pub fn rotation_from_edges(
    first_camera_edge: Vector3,
    second_camera_edge: Vector3,
    world_basis_inverse: Matrix3,
) -> Matrix3
    ensures { result
        ≡ (rotation_from_edges first_camera_edge second_camera_edge
        world_basis_inverse).value }
{
    let normal = first_camera_edge.cross(second_camera_edge);
    Matrix3::from_columns(first_camera_edge, second_camera_edge, normal) * world_basis_inverse
}

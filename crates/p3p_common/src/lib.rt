//! What the three-point solvers share: their input, the recovery of a rotation from edges and the
//! gates that a pose passes. From pose/p3p/common.rs.
#![tactic(auto)]

pub mod gate;
pub mod has_near_orthonormal_columns;
pub mod input;
pub mod project_to_rotation;
pub mod projected_pose;
pub mod push_pose;
pub mod ray_fits;
pub mod rotation_from_edges;
pub mod solutions;
pub mod world_basis_inverse;

//! The gate that a pose recovered from edges and positive depths passes, is projected at, or does
//! not pass: push_pose_with_cheirality of pose/p3p/common.rs with
//! `edge_basis_with_positive_depths`, and push_valid_rotation, both without the push.
ghost use Rattle.std.specs.Prelude.{◌≡◌};
ghost use Rattle.p3p_common.specs.Gate.{gate, projected_gate};

use crate::has_near_orthonormal_columns::has_near_orthonormal_columns;
use crate::input::P3pInput;
use crate::project_to_rotation::project_to_rotation;
use crate::projected_pose::projected_pose_fits_minimal_sample;
use frames::pose::Pose;
use linalg::matrix3::Matrix3;
use linalg::vector3::Vector3;

#[derive(Clone, Copy)]
pub enum Gated {
    /// As it came.
    Passed(Pose),
    /// With the projected rotation for the matrix, and camera point 0 kept.
    Projected(Pose),
    Dropped,
}

/// The projection of a pose whose matrix is not near a rotation.
#[tactic(auto, unfolding(crate::specs::Gate::projected_gate, crate::specs::Gate::keep_point0, crate::specs::Gate::if_valid))]
pub fn projected_gate(input: P3pInput, raw_rotation: Matrix3, translation: Vector3) -> Gated
    ensures { result ≡ (projected_gate input raw_rotation translation).value }
{
    let Some(rotation) = project_to_rotation(raw_rotation) else {
        return Gated::Dropped;
    };
    let p0 = input.world.p0;
    let raw = Pose {
        rotation: raw_rotation,
        translation,
    };
    let camera0 = raw.camera_point(p0);
    let kept = camera0 - rotation * p0;
    let pose = Pose {
        rotation,
        translation: kept,
    };
    if projected_pose_fits_minimal_sample(input, pose) && kept.all_finite() {
        Gated::Projected(pose)
    } else {
        Gated::Dropped
    }
}

#[tactic(auto, unfolding(crate::specs::Gate::gate, crate::specs::Gate::if_valid))]
pub fn gate(input: P3pInput, raw_rotation: Matrix3, translation: Vector3) -> Gated
    ensures { result ≡ (gate input raw_rotation translation).value }
{
    if !has_near_orthonormal_columns(raw_rotation) {
        return projected_gate(input, raw_rotation, translation);
    }
    if translation.all_finite() {
        Gated::Passed(Pose {
            rotation: raw_rotation,
            translation,
        })
    } else {
        Gated::Dropped
    }
}

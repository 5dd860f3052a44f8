//! A pose appended to the solutions where the gate lets it by (push_pose_with_cheirality of
//! pose/p3p/common.rs, as push_edge_basis_pose_from_positive_depths calls it). The solve stores
//! what the gate gives in its own slots; this is what is replayed.
ghost use Rattle.std.specs.Prelude.{◌≡◌};
ghost use Rattle.p3p_common.specs.PushPose.{push_pose};

use crate::gate::{Gated, gate};
use crate::input::P3pInput;
use crate::solutions::Solutions;
use linalg::matrix3::Matrix3;
use linalg::vector3::Vector3;

#[tactic(auto, unfolding(crate::specs::PushPose::push_pose, crate::specs::PushPose::push_gated))]
pub fn push_pose(
    input: P3pInput,
    output: Solutions,
    raw_rotation: Matrix3,
    translation: Vector3,
    updates: u32,
    lifted: bool,
) -> Solutions
    ensures { result ≡ (push_pose input output raw_rotation translation updates lifted).value }
{
    match gate(input, raw_rotation, translation) {
        Gated::Passed(pose) | Gated::Projected(pose) => output.push(pose, updates, lifted),
        Gated::Dropped => output,
    }
}

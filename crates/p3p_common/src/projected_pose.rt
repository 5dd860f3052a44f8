//! Whether a projected pose still meets the three observations (projected_pose_fits_minimal_sample
//! of pose/p3p/common.rs).
ghost use Rattle.std.specs.Prelude.{◌≡◌};
ghost use Rattle.p3p_common.specs.ProjectedPose.{observation_fits};
ghost use Rattle.p3p_common.specs.ProjectedPose.{projected_pose_fits_minimal_sample};

use crate::input::P3pInput;
use crate::ray_fits::ray_fits;
use frames::pose::Pose;
use linalg::vector3::Vector3;

/// Whether a world point, seen from the pose, lies on its bearing.
#[tactic(auto, unfolding(crate::specs::ProjectedPose::observation_fits))]
pub fn observation_fits(pose: Pose, world: Vector3, bearing: Vector3) -> bool
    ensures { result ≡ (observation_fits pose world bearing).value }
{
    ray_fits(pose.camera_point(world), bearing)
}

#[tactic(auto, unfolding(crate::specs::ProjectedPose::projected_pose_fits_minimal_sample))]
pub fn projected_pose_fits_minimal_sample(input: P3pInput, pose: Pose) -> bool
    ensures { result ≡ (projected_pose_fits_minimal_sample input pose).value }
{
    let P3pInput { world, bearings } = input;
    observation_fits(pose, world.p0, bearings.f0)
        && observation_fits(pose, world.p1, bearings.f1)
        && observation_fits(pose, world.p2, bearings.f2)
}

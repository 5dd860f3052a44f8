//! The score of a pose by a fourth target: how far the target's camera point lies off its bearing,
//! where it lies before the camera.
ghost use Rattle.std.specs.Prelude.{◌≡◌};
ghost use Rattle.choice.specs.Score as Score;

use frames::pose::Pose;
use linalg::vector3::Vector3;

/// |camera × bearing|² ÷ (camera · bearing)², which need not be finite, where camera · bearing is
/// above zero. A pose has no score where that is not above zero, or a NaN.
#[tactic(auto, unfolding(crate::specs::Score::score))]
pub fn score(pose: Pose, target: Vector3, bearing: Vector3) -> Option<f64>
    ensures { result ≡ (Score.score pose target bearing).value }
{
    let camera = pose.camera_point(target);
    let depth = camera.dot(bearing);
    if depth > 0.0 {
        let off_ray = camera.cross(bearing).norm_squared();
        Some(off_ray / (depth * depth))
    } else {
        None
    }
}

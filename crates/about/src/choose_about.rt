//! The choice among poses about a point: the checking target less that point goes into the choice.
ghost use Rattle.std.specs.Prelude.{◌≡◌};
ghost use Rattle.about.specs.ChooseAbout.{choose_about};

use choice::choose::{Choice, choose};
use frames::pose::Pose;
use linalg::vector3::Vector3;

/// The choice among the first `count` poses, which are about `origin`. The difference is not
/// tested: where it is not finite no score is, and the choice is refused with 10.
#[tactic(auto, unfolding(crate::specs::ChooseAbout::choose_about))]
pub fn choose_about(
    poses: [Pose; 4],
    count: u32,
    origin: Vector3,
    target: Vector3,
    bearing: Vector3,
) -> Choice
    ensures { result ≡ (choose_about poses count origin target bearing).value }
{
    choose(poses, count, target - origin, bearing)
}

//! A pose: nine rotation entries and three translation entries, from the world to the camera.
ghost use Rattle.std.specs.Prelude.{◌≡◌};
ghost use Rattle.frames.specs.Lent.{pose_at, entries};
ghost use Rattle.frames.specs.Poses.{zero_pose, camera_point};

use crate::lent::pose_at;
use linalg::matrix3::Matrix3;
use linalg::vector3::Vector3;

#[derive(Clone, Copy)]
pub struct Pose {
    pub rotation: Matrix3,
    pub translation: Vector3,
}

impl Pose {
    /// Plus zeros throughout, for a slot that holds no pose.
    pub fn zeros() -> Self
        ensures { result ≡ zero_pose }
    {
        let zero = Vector3::zeros();
        Self {
            rotation: Matrix3::from_columns(zero, zero, zero),
            translation: zero,
        }
    }

    /// R × world + t: where a world point lies before the camera.
    #[tactic(auto, unfolding(crate::specs::Poses::camera_point))]
    pub fn camera_point(self, world: Vector3) -> Vector3
        ensures { result ≡ (camera_point self world).value }
    {
        self.rotation * world + self.translation
    }
}

/// The twelve numbers of a pose: the rotation by columns, then the translation.
impl From<Pose> for [f64; 12] {
    ghost from_gives = { λ pose numbers. numbers ≡ entries pose };

    #[tactic(auto, unfolding(crate::specs::Lent::entries))]
    fn from(pose: Pose) -> [f64; 12] {
        let Pose {
            rotation: r,
            translation: t,
        } = pose;
        [
            r.m00, r.m10, r.m20, r.m01, r.m11, r.m21, r.m02, r.m12, r.m22, t.x, t.y, t.z,
        ]
    }
}

impl From<[f64; 12]> for Pose {
    ghost from_gives = { λ numbers pose. pose ≡ pose_at numbers 0 };

    fn from(numbers: [f64; 12]) -> Self {
        pose_at(&numbers, 0)
    }
}

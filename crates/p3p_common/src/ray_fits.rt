//! Whether a camera point lies in front, within 2^-20 of its bearing's direction (ray_fits of
//! pose/p3p/common.rs).
ghost use Rattle.std.specs.Prelude.{◌≡◌};
ghost use Rattle.p3p_common.specs.RayFits.{ray_fits};

use ieee754::is_finite::is_finite;
use linalg::vector3::Vector3;

/// 2^-20
pub const PROJECTED_RAY_TOLERANCE: f64 = 9.5367431640625e-7;

#[tactic(auto, unfolding(crate::specs::RayFits::ray_fits))]
pub fn ray_fits(camera: Vector3, bearing: Vector3) -> bool
    ensures { result ≡ (ray_fits camera bearing).value }
{
    let ray_depth = camera.dot(bearing);
    is_finite(ray_depth)
        && ray_depth > 0.0
        && camera.cross(bearing).norm_squared()
            <= PROJECTED_RAY_TOLERANCE * PROJECTED_RAY_TOLERANCE * ray_depth * ray_depth
}

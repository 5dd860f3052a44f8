//! The positions of the three targets in the world.
ghost use Rattle.std.specs.Prelude.{◌≡◌};
ghost use Rattle.frames.specs.Points.{world_finite};

use linalg::vector3::Vector3;

#[derive(Clone, Copy)]
pub struct World {
    pub p0: Vector3,
    pub p1: Vector3,
    pub p2: Vector3,
}

impl World {
    /// Whether all nine coordinates are finite.
    #[tactic(auto, unfolding(crate::specs::Points::world_finite))]
    pub fn is_finite(self) -> bool
        ensures { result ≡ world_finite self }
    {
        self.p0.all_finite() & self.p1.all_finite() & self.p2.all_finite()
    }
}

//! The world points less the first of them.
ghost use Rattle.std.specs.Prelude.{◌≡◌};
ghost use Rattle.about.specs.Differences as Differences;

use frames::world::World;

/// Each point less the first, one rounding a coordinate.
#[tactic(auto, unfolding(crate::specs::Differences::differences))]
pub fn differences(world: World) -> World
    ensures { result ≡ (Differences.differences world).value }
{
    let World { p0, p1, p2 } = world;
    World {
        p0: p0 - p0,
        p1: p1 - p0,
        p2: p2 - p0,
    }
}

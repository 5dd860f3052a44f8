//! Multiplying all coordinates of a plate by 2^k.
ghost use Rattle.std.specs.Prelude.{◌≡◌, T};
ghost use Rattle.plates.specs.TimesPower as TimesPower;

use crate::outcome::{Outcome, done};
use crate::plate::Plate;
use frames::world::World;
use linalg::vector3::Vector3;
use scaleb::reach::Reach;
use scaleb::scalable::is_scalable;
use scaleb::times::scaleb;

// Whether each coordinate of a point, times 2^k, is zero or in the normal range.
#[tactic(auto, unfolding(crate::specs::TimesPower::point_scalable))]
fn point_scalable(p: Vector3, reach: Reach) -> bool
    ensures { result ≡ TimesPower.point_scalable reach.k p }
{
    is_scalable(p.x, reach) && is_scalable(p.y, reach) && is_scalable(p.z, reach)
}

#[tactic(auto, unfolding(crate::specs::TimesPower::world_scalable))]
fn world_scalable(world: World, reach: Reach) -> bool
    ensures { result ≡ TimesPower.world_scalable reach.k world }
{
    let World { p0, p1, p2 } = world;
    point_scalable(p0, reach) && point_scalable(p1, reach) && point_scalable(p2, reach)
}

// 2^k times a point.
#[tactic(auto, using(crate::proofs::PowerLaws::scalables), unfolding(crate::specs::TimesPower::scaled_point))]
fn scaled_point(p: Vector3, reach: Reach) -> Vector3
    requires { T (TimesPower.point_scalable reach.k p) }
    ensures { result ≡ TimesPower.scaled_point reach.k p }
{
    Vector3 {
        x: scaleb(p.x, reach),
        y: scaleb(p.y, reach),
        z: scaleb(p.z, reach),
    }
}

#[tactic(auto, using(crate::proofs::PowerLaws::scalables), unfolding(crate::specs::TimesPower::scaled_world))]
fn scaled_world(world: World, reach: Reach) -> World
    requires { T (TimesPower.world_scalable reach.k world) }
    ensures { result ≡ TimesPower.scaled_world reach.k world }
{
    World {
        p0: scaled_point(world.p0, reach),
        p1: scaled_point(world.p1, reach),
        p2: scaled_point(world.p2, reach),
    }
}

/// Refused with 12 where k is not from -64 to 64, then with 13 where a coordinate is not finite or
/// leaves the normal range.
#[tactic(auto, unfolding(crate::specs::TimesPower::times_power))]
pub fn times_power(plate: Plate, k: i32) -> Outcome
    ensures { result ≡ TimesPower.times_power plate k }
{
    let world = plate.world;
    let Some(reach) = Reach::new(k) else {
        return Outcome { refusal: 12, plate };
    };
    if !world_scalable(world, reach) {
        return Outcome { refusal: 13, plate };
    }
    done(scaled_world(world, reach))
}

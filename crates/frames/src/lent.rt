//! Points, bearings and poses among lent doubles.
ghost use Rattle.std.specs.Prelude.{◌≡◌, ◌+◌, ◌≤◌, length};
ghost use Rattle.frames.specs.Lent.{vector_at, world_at, bearings_at, pose_at};

use crate::bearings::Bearings;
use crate::pose::Pose;
use crate::world::World;
use linalg::matrix3::Matrix3;
use linalg::vector3::Vector3;

/// The three doubles from `at` on.
#[tactic(auto, unfolding(crate::specs::Lent::vector_at))]
pub fn vector_at(xs: &[f64], at: usize) -> Vector3
    requires { at + 3 ≤ length xs.now }
    ensures { result ≡ vector_at xs.now at }
{
    Vector3 {
        x: xs[at],
        y: xs[at + 1],
        z: xs[at + 2],
    }
}

/// The nine doubles from `at` on, point by point.
#[tactic(auto, unfolding(crate::specs::Lent::world_at))]
pub fn world_at(xs: &[f64], at: usize) -> World
    requires { at + 9 ≤ length xs.now }
    ensures { result ≡ world_at xs.now at }
{
    World {
        p0: vector_at(xs, at),
        p1: vector_at(xs, at + 3),
        p2: vector_at(xs, at + 6),
    }
}

/// The nine doubles from `at` on, bearing by bearing.
#[tactic(auto, unfolding(crate::specs::Lent::bearings_at))]
pub fn bearings_at(xs: &[f64], at: usize) -> Bearings
    requires { at + 9 ≤ length xs.now }
    ensures { result ≡ bearings_at xs.now at }
{
    Bearings {
        f0: vector_at(xs, at),
        f1: vector_at(xs, at + 3),
        f2: vector_at(xs, at + 6),
    }
}

/// The twelve doubles from `at` on: the rotation by columns, then the translation.
#[tactic(auto, unfolding(crate::specs::Lent::pose_at))]
pub fn pose_at(xs: &[f64], at: usize) -> Pose
    requires { at + 12 ≤ length xs.now }
    ensures { result ≡ pose_at xs.now at }
{
    let column0 = vector_at(xs, at);
    let column1 = vector_at(xs, at + 3);
    let column2 = vector_at(xs, at + 6);
    Pose {
        rotation: Matrix3::from_columns(column0, column1, column2),
        translation: vector_at(xs, at + 9),
    }
}

//! The three targets of a plate, and what belongs to each. The operations get a target's number and
//! refuse one that no target has.
ghost use Rattle.std.specs.Prelude.{◌≡◌};
ghost use Rattle.plates.specs.Target.{number_of_target, NamesTarget, target, ray, opposite};
ghost use Rattle.plates.specs.Target.{with_target};

use frames::bearings::Bearings;
use frames::squared_edges::SquaredEdges;
use frames::world::World;
use linalg::vector3::Vector3;
use std::error::Error;
use std::fmt;

/// A target of a plate, by its number 0, 1 or 2.
#[derive(Clone, Copy, Debug, PartialEq, Eq)]
pub enum Target {
    First,
    Second,
    Third,
}

/// A number that no target has.
#[derive(Clone, Copy, Debug, PartialEq, Eq)]
pub struct NoSuchTarget(pub u32);

impl TryFrom<u32> for Target {
    type Error = NoSuchTarget;

    ghost try_from_gives = { NamesTarget };

    fn try_from(number: u32) -> Result<Self, NoSuchTarget> {
        match number {
            0 => Ok(Target::First),
            1 => Ok(Target::Second),
            2 => Ok(Target::Third),
            _ => Err(NoSuchTarget(number)),
        }
    }
}

impl fmt::Display for NoSuchTarget {
    fn fmt<W: fmt::Write>(&self, f: &mut fmt::Formatter<W>) -> fmt::Result {
        write!(f, "no target has the number {}", self.0)
    }
}

impl Error for NoSuchTarget {}

#[tactic(auto, unfolding(crate::specs::Target::target))]
pub(crate) fn target_of(world: World, which: Target) -> Vector3
    ensures { result ≡ target world (number_of_target which) }
{
    match which {
        Target::First => world.p0,
        Target::Second => world.p1,
        Target::Third => world.p2,
    }
}

// The bearing to a target.
#[tactic(auto, unfolding(crate::specs::Target::ray))]
pub(crate) fn ray(bearings: Bearings, which: Target) -> Vector3
    ensures { result ≡ ray bearings which }
{
    match which {
        Target::First => bearings.f0,
        Target::Second => bearings.f1,
        Target::Third => bearings.f2,
    }
}

// The squared edge opposite to a target, between the other two.
#[tactic(auto, unfolding(crate::specs::Target::opposite))]
pub(crate) fn opposite(edges: SquaredEdges, which: Target) -> f64
    ensures { result ≡ opposite edges which }
{
    match which {
        Target::First => edges.a12,
        Target::Second => edges.a02,
        Target::Third => edges.a01,
    }
}

// The world with one target moved to a point.
#[tactic(auto, unfolding(crate::specs::Target::with_target))]
pub(crate) fn with_target(world: World, which: Target, point: Vector3) -> World
    ensures { result ≡ with_target world (number_of_target which) point }
{
    match which {
        Target::First => World { p0: point, ..world },
        Target::Second => World { p1: point, ..world },
        Target::Third => World { p2: point, ..world },
    }
}

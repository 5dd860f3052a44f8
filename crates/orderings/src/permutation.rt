//! The choice of solve_best_conditioned_permutation (lambdatwist.rs): of the five other orderings
//! of the points, the one whose leading coefficient is the largest beside the others.
ghost use Rattle.std.specs.Prelude.{◌≡◌, Float};
ghost use Rattle.orderings.specs.Permutation.{with_condition, better, best_permutation};

use crate::condition::leading_cubic_condition;
use frames::bearings::Bearings;
use frames::world::World;
use linalg::vector3::Vector3;
use p3p_common::input::P3pInput;

/// What has a condition, by which the better of two is told.
pub trait HasCondition: Copy {
    ghost condition: { Self → Float };

    fn condition(self) -> f64
        ensures { result ≡ condition self };
}

/// The second only if its condition is greater: a NaN in the first stays.
#[tactic(auto, unfolding(crate::specs::Permutation::better))]
pub fn better<T: HasCondition>(best: T, next: T) -> T
    ensures { result ≡ better T.condition best next }
{
    if next.condition() > best.condition() {
        next
    } else {
        best
    }
}

/// An ordering of the points and bearings, with its condition.
#[derive(Clone, Copy)]
pub struct Conditioned {
    pub condition: f64,
    pub world: World,
    pub bearings: Bearings,
}

impl HasCondition for Conditioned {
    ghost condition = { λ ordering. ordering.condition };

    fn condition(self) -> f64 {
        self.condition
    }
}

/// The ordering of three points and the bearings to them.
#[tactic(auto, unfolding(crate::specs::Permutation::with_condition))]
pub fn with_condition(
    p0: Vector3,
    p1: Vector3,
    p2: Vector3,
    f0: Vector3,
    f1: Vector3,
    f2: Vector3,
) -> Conditioned
    ensures { result ≡ (with_condition p0 p1 p2 f0 f1 f2).value }
{
    let world = World { p0, p1, p2 };
    let bearings = Bearings { f0, f1, f2 };
    Conditioned {
        condition: leading_cubic_condition(world, bearings),
        world,
        bearings,
    }
}

/// [[0, 2, 1], [1, 0, 2], [1, 2, 0], [2, 0, 1], [2, 1, 0]], in this order
#[tactic(auto, unfolding(crate::specs::Permutation::best_permutation, crate::specs::Permutation::best_of))]
pub fn best_permutation(input: P3pInput) -> Conditioned
    ensures { result ≡ (best_permutation input).value }
{
    let World { p0, p1, p2 } = input.world;
    let Bearings { f0, f1, f2 } = input.bearings;
    let best = with_condition(p0, p2, p1, f0, f2, f1);
    let best = better(best, with_condition(p1, p0, p2, f1, f0, f2));
    let best = better(best, with_condition(p1, p2, p0, f1, f2, f0));
    let best = better(best, with_condition(p2, p0, p1, f2, f0, f1));
    better(best, with_condition(p2, p1, p0, f2, f1, f0))
}

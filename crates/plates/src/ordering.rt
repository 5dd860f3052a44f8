//! The choice of solve_best_conditioned_permutation (lambdatwist.rs) by the squared edges that a
//! plate has stored.
ghost use Rattle.std.specs.Prelude.{◌≡◌};
ghost use Rattle.plates.specs.Ordering.{ordered_rays, ordered_edges, ordering, best_ordering};

use crate::targets::{Target, opposite, ray};
use frames::bearings::Bearings;
use frames::squared_edges::SquaredEdges;
use orderings::condition::condition_of_edges;
use orderings::permutation::{HasCondition, better};

/// The targets that come first, second and third.
#[derive(Clone, Copy, Debug, PartialEq, Eq)]
pub struct Permutation(pub Target, pub Target, pub Target);

/// An order of the targets, and its condition.
#[derive(Clone, Copy, Debug, PartialEq)]
pub struct Ordering {
    pub condition: f64,
    pub order: Permutation,
}

impl HasCondition for Ordering {
    ghost condition = { λ ordering. ordering.condition };

    fn condition(self) -> f64 {
        self.condition
    }
}

#[tactic(auto, unfolding(crate::specs::Ordering::ordered_rays))]
pub(crate) fn ordered_rays(bearings: Bearings, order: Permutation) -> Bearings
    ensures { result ≡ ordered_rays bearings order }
{
    let Permutation(i, j, k) = order;
    Bearings {
        f0: ray(bearings, i),
        f1: ray(bearings, j),
        f2: ray(bearings, k),
    }
}

// The edge between the first and the second target is opposite to the third.
#[tactic(auto, unfolding(crate::specs::Ordering::ordered_edges))]
pub(crate) fn ordered_edges(edges: SquaredEdges, order: Permutation) -> SquaredEdges
    ensures { result ≡ ordered_edges edges order }
{
    let Permutation(i, j, k) = order;
    SquaredEdges {
        a01: opposite(edges, k),
        a02: opposite(edges, j),
        a12: opposite(edges, i),
    }
}

#[tactic(auto, unfolding(crate::specs::Ordering::ordering))]
fn ordering_of(edges: SquaredEdges, bearings: Bearings, order: Permutation) -> Ordering
    ensures { result ≡ (ordering edges bearings order).value }
{
    let squares = ordered_edges(edges, order);
    let rays = ordered_rays(bearings, order);
    let condition = condition_of_edges(squares, rays);
    Ordering { condition, order }
}

#[tactic(auto, unfolding(crate::specs::Ordering::best_ordering, orderings::specs::Permutation::best_of))]
pub(crate) fn best_ordering(edges: SquaredEdges, bearings: Bearings) -> Ordering
    ensures { result ≡ (best_ordering edges bearings).value }
{
    use Target::{First, Second, Third};
    let best = ordering_of(edges, bearings, Permutation(First, Third, Second));
    let best = better(
        best,
        ordering_of(edges, bearings, Permutation(Second, First, Third)),
    );
    let best = better(
        best,
        ordering_of(edges, bearings, Permutation(Second, Third, First)),
    );
    let best = better(
        best,
        ordering_of(edges, bearings, Permutation(Third, First, Second)),
    );
    better(
        best,
        ordering_of(edges, bearings, Permutation(Third, Second, First)),
    )
}

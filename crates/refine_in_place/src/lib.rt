//! The refinement of depths in place: the triple is lent by `&mut` and altered there, as in
//! refine_depths of pose/p3p/common.rs. A thin layer over the form by value,
//! refinement::refine_depths, which does the work.
#![tactic(auto)]

ghost use Rattle.std.specs.Prelude.{◌≡◌, ℕ};
ghost use Rattle.refinement.specs.RefineDepths.{refine_depths};

use frames::cosines::Cosines;
use frames::squared_edges::SquaredEdges;
use linalg::vector3::Vector3;
use refinement::refine_depths::{Refined, refine_depths};

/// At exit the triple holds the definition's depths, all three entries, and the answer is the
/// definition's count of updates.
pub fn refine_depths_in_place(
    depths: &mut Vector3,
    squared_edges: SquaredEdges,
    bearing_cosines: Cosines,
    iterations: u32,
) -> u32
    ensures { let refined =
        (refine_depths depths.old squared_edges bearing_cosines iterations).value in
        (result ≡ refined.updates) × (depths.new ≡ refined.depths) }
{
    let refined = refine_depths(*depths, squared_edges, bearing_cosines, iterations);
    *depths = refined.depths;
    refined.updates
}

/// The same of a triple by value, which is lent.
pub fn refine_depths_here(
    mut depths: Vector3,
    squared_edges: SquaredEdges,
    bearing_cosines: Cosines,
    iterations: u32,
) -> Refined
    ensures { result ≡ (refine_depths depths squared_edges bearing_cosines iterations).value }
{
    let updates = refine_depths_in_place(&mut depths, squared_edges, bearing_cosines, iterations);
    Refined { depths, updates }
}

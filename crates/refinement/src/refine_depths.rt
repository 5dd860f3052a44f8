//! The refinement of three depths by Newton's method (refine_depths of pose/p3p/common.rs).
ghost use Rattle.std.specs.Prelude.{◌≡◌};
ghost use Rattle.refinement.specs.RefineDepths.{depth_residual, depth_update, depth_step};
ghost use Rattle.refinement.specs.RefineDepths.{refine_depths};

use frames::cosines::Cosines;
use frames::squared_edges::SquaredEdges;
use ieee754::is_finite::is_finite;
use ieee754::max::max;
use linalg::vector3::Vector3;

/// The depths in the end, and how often they were updated.
#[derive(Clone, Copy)]
pub struct Refined {
    pub depths: Vector3,
    pub updates: u32,
}

/// How far the depths are from the squared edges, by the law of cosines.
#[tactic(auto, unfolding(crate::specs::RefineDepths::depth_residual))]
pub fn depth_residual(
    depths: Vector3,
    squared_edges: SquaredEdges,
    bearing_cosines: Cosines,
) -> Vector3
    ensures { result ≡ (depth_residual depths squared_edges bearing_cosines).value }
{
    let Vector3 {
        x: d0,
        y: d1,
        z: d2,
    } = depths;
    let SquaredEdges { a01, a02, a12 } = squared_edges;
    let Cosines { m01, m02, m12 } = bearing_cosines;
    Vector3 {
        x: d0 * d0 - 2.0 * d0 * d1 * m01 + d1 * d1 - a01,
        y: d0 * d0 - 2.0 * d0 * d2 * m02 + d2 * d2 - a02,
        z: d1 * d1 - 2.0 * d1 * d2 * m12 + d2 * d2 - a12,
    }
}

/// Newton's step from a residual. There is none where the denominator is zero or not finite, nor
/// where the candidate is not finite.
#[tactic(auto, unfolding(crate::specs::RefineDepths::depth_update, crate::specs::RefineDepths::if_finite))]
pub fn depth_update(depths: Vector3, bearing_cosines: Cosines, residual: Vector3) -> Option<Vector3>
    ensures { result ≡ (depth_update depths bearing_cosines residual).value }
{
    let Vector3 {
        x: d0,
        y: d1,
        z: d2,
    } = depths;
    let Cosines { m01, m02, m12 } = bearing_cosines;
    let Vector3 {
        x: r0,
        y: r1,
        z: r2,
    } = residual;
    let x11 = d0 - d1 * m01;
    let x12 = d1 - d0 * m01;
    let x21 = d0 - d2 * m02;
    let x23 = d2 - d0 * m02;
    let x32 = d1 - d2 * m12;
    let x33 = d2 - d1 * m12;
    let denominator = x11 * x23 * x32 + x12 * x21 * x33;
    if !is_finite(denominator) || denominator == 0.0 {
        return None;
    }
    let inverse = 0.5 / denominator;
    let candidate = Vector3 {
        x: d0 + (-x23 * x32 * r0 - x12 * x33 * r1 + x12 * x23 * r2) * inverse,
        y: d1 + (-x21 * x33 * r0 + x11 * x33 * r1 - x11 * x23 * r2) * inverse,
        z: d2 + (x21 * x32 * r0 - x11 * x32 * r1 - x12 * x21 * r2) * inverse,
    };
    candidate.all_finite().then_some(candidate)
}

/// One turn: the test of the residual, then the update.
#[tactic(auto, unfolding(crate::specs::RefineDepths::depth_step))]
pub fn depth_step(
    depths: Vector3,
    squared_edges: SquaredEdges,
    bearing_cosines: Cosines,
    residual_tolerance: f64,
) -> Option<Vector3>
    ensures { result ≡ (depth_step depths squared_edges bearing_cosines residual_tolerance).value }
{
    let residual = depth_residual(depths, squared_edges, bearing_cosines);
    if residual.abs_sum() < residual_tolerance {
        None
    } else {
        depth_update(depths, bearing_cosines, residual)
    }
}

/// At most `iterations` updates.
#[tactic(auto, using(crate::proofs::Turns::turns_stop, crate::proofs::Turns::turns_go, crate::proofs::Turns::turns_end), unfolding(crate::specs::RefineDepths::refine_depths))]
pub fn refine_depths(
    depths: Vector3,
    squared_edges: SquaredEdges,
    bearing_cosines: Cosines,
    iterations: u32,
) -> Refined
    ensures { result ≡ (refine_depths depths squared_edges bearing_cosines iterations).value }
{
    let SquaredEdges { a01, a02, a12 } = squared_edges;
    let residual_tolerance = 1e-10 * max(max(a01, a02), a12);
    let mut refined = depths;
    for updates in 0..iterations {
        let Some(candidate) = depth_step(
            refined,
            squared_edges,
            bearing_cosines,
            residual_tolerance,
        ) else {
            return Refined {
                depths: refined,
                updates,
            };
        };
        refined = candidate;
    }
    Refined {
        depths: refined,
        updates: iterations,
    }
}

//! From depth candidates to poses: the end of solve_ordered (lambdatwist.rs). Each candidate is
//! refined, and where its depths are positive a pose is made of it and goes to the gate.
ghost use Rattle.std.specs.Prelude.{◌≡◌, Bool, ◌≤◌};
ghost use Rattle.p3p_common.specs.PushPose.{push_gated};
ghost use Rattle.lambdatwist.specs.Poses.{all_positive, push_depths, pose_turn, poses};
ghost use Rattle.lambdatwist.specs.LentSlots.{turned, held, Fresh};
ghost use Rattle.lambdatwist.specs.Types.{Solutions};

use crate::slots::{Kept, store};
use depths::candidates::Candidates;
use frames::bearings::Bearings;
use linalg::matrix3::Matrix3;
use linalg::vector3::Vector3;
use orderings::measured::Measured;
use p3p_common::gate::{Gated, gate};
use p3p_common::input::P3pInput;
use p3p_common::rotation_from_edges::rotation_from_edges;
use refinement::refine_depths::{Refined, refine_depths};

/// Whether three depths are finite and above zero.
#[tactic(auto, unfolding(crate::specs::Poses::all_positive))]
pub fn all_positive(d: Vector3) -> bool
    ensures { result ≡ all_positive d }
{
    d.all_finite() && !(d.x <= 0.0) && !(d.y <= 0.0) && !(d.z <= 0.0)
}

/// What the gate says of the pose of three refined depths, on the input as it was given.
#[tactic(auto, unfolding(crate::specs::Poses::push_depths, p3p_common::specs::PushPose::push_pose))]
pub fn gated_depths(
    input: P3pInput,
    measured: Measured,
    world_inverse: Matrix3,
    refined: Refined,
) -> Gated
    ensures { (output : Solutions) (lifted : Bool) →
        push_gated output result refined.updates lifted
        ≡ (push_depths input measured world_inverse output refined lifted).value }
{
    let Bearings { f0, f1, f2 } = measured.bearings;
    let camera0 = f0 * refined.depths.x;
    let camera1 = f1 * refined.depths.y;
    let camera2 = f2 * refined.depths.z;
    let rotation = rotation_from_edges(camera0 - camera1, camera0 - camera2, world_inverse);
    let translation = camera0 - rotation * measured.p0;
    gate(input, rotation, translation)
}

/// The pose of one candidate, where it gives one.
#[tactic(auto, unfolding(crate::specs::Poses::pose_turn, p3p_common::specs::PushPose::push_gated))]
pub fn pose_turn(
    input: P3pInput,
    measured: Measured,
    world_inverse: Matrix3,
    depths: Vector3,
) -> Option<Kept>
    ensures { (output : Solutions) (lifted : Bool) →
        turned output result lifted
        ≡ (pose_turn input measured world_inverse output (record { depths = depths; lifted = lifted })
        ).value }
{
    let Measured {
        squares,
        cosines,
        ..
    } = measured;
    let refined = refine_depths(depths, squares, cosines, 5);
    if !all_positive(refined.depths) {
        return None;
    }
    let updates = refined.updates;
    match gated_depths(input, measured, world_inverse, refined) {
        Gated::Passed(pose) | Gated::Projected(pose) => Some(Kept { pose, updates }),
        Gated::Dropped => None,
    }
}

// Fills a slot for each pose that is kept, and returns how many.
#[tactic(auto, using(crate::proofs::PoseTurns::turns_go, crate::proofs::Filling::filling), unfolding(crate::specs::Poses::poses, crate::specs::Poses::pose_turns))]
pub(crate) fn poses(
    input: P3pInput,
    measured: Measured,
    world_inverse: Matrix3,
    found: Candidates,
    slots: &mut [[f64; 12]; 4],
    updates: &mut [u32; 4],
    lifted: &mut [bool; 4],
) -> usize
    requires count_bound { found.count ≤ 4 }
    requires fresh { Fresh slots.old updates.old lifted.old }
    ensures few { result ≤ 4 }
    ensures filled { held result slots.new updates.new lifted.new
        ≡ (poses input measured world_inverse found).value }
{
    // the count and the slots apart: a copy of all of `found` would link memcpy
    let Candidates {
        count: depth_count,
        slots: candidates,
        ..
    } = found;
    let mut count = 0;
    for candidate in &candidates[..depth_count] {
        if let Some(kept) = pose_turn(input, measured, world_inverse, candidate.depths) {
            store(kept, candidate.lifted, count, slots, updates, lifted);
            count += 1;
        }
    }
    count
}

//! The answer of a solve over lent arrays.
ghost use Rattle.std.specs.Prelude.{◌≡◌, map, ◌++◌};
ghost use Rattle.frames.specs.Lent.{entries};
ghost use Rattle.lent_answers.specs.Solved.{flag, poses_after, updates_after};
ghost use Rattle.lent_answers.specs.Solved.{lifted_after, count_after};

use frames::pose::Pose;
use lambdatwist::solve::Answer;

// The four slots one after another, each by the columns of its rotation and then its translation.
#[tactic(auto, unfolding(frames::specs::Lent::entries))]
fn all_entries(p0: Pose, p1: Pose, p2: Pose, p3: Pose) -> [f64; 48]
    ensures { result ≡ entries p0 ++ entries p1 ++ entries p2 ++ entries p3 }
{
    let r0 = p0.rotation;
    let t0 = p0.translation;
    let r1 = p1.rotation;
    let t1 = p1.translation;
    let r2 = p2.rotation;
    let t2 = p2.translation;
    let r3 = p3.rotation;
    let t3 = p3.translation;
    [
        r0.m00, r0.m10, r0.m20, r0.m01, r0.m11, r0.m21, r0.m02, r0.m12, r0.m22, t0.x, t0.y, t0.z,
        r1.m00, r1.m10, r1.m20, r1.m01, r1.m11, r1.m21, r1.m02, r1.m12, r1.m22, t1.x, t1.y, t1.z,
        r2.m00, r2.m10, r2.m20, r2.m01, r2.m11, r2.m21, r2.m02, r2.m12, r2.m22, t2.x, t2.y, t2.z,
        r3.m00, r3.m10, r3.m20, r3.m01, r3.m11, r3.m21, r3.m02, r3.m12, r3.m22, t3.x, t3.y, t3.z,
    ]
}

// The marks as numbers: a `bool` that is lent would have to hold 0 or 1 before.
fn flags(lifted: [bool; 4]) -> [u32; 4]
    ensures { result ≡ map flag lifted }
{
    lifted.map(u32::from)
}

/// Writes an answer. Returns its refusal number, 0 where it was written. Put into its callers: an
/// answer that is handed on is copied by memcpy, which the library is not to need.
#[tactic(auto, unfolding(crate::specs::Solved::poses_after, crate::specs::Solved::updates_after, crate::specs::Solved::lifted_after, crate::specs::Solved::count_after))]
#[inline]
pub fn write_answer(
    answer: Answer,
    poses: &mut [f64; 48],
    updates: &mut [u32; 4],
    lifted: &mut [u32; 4],
    count: &mut u32,
) -> u32
    ensures value { result ≡ answer.refusal }
    ensures poses_after { poses.new ≡ poses_after answer poses.old }
    ensures updates_after { updates.new ≡ updates_after answer updates.old }
    ensures lifted_after { lifted.new ≡ lifted_after answer lifted.old }
    ensures count_after { count.new ≡ count_after answer count.old }
{
    if answer.refusal == 0 {
        let [p0, p1, p2, p3] = answer.poses;
        *poses = all_entries(p0, p1, p2, p3);
        *updates = answer.updates;
        *lifted = flags(answer.lifted);
        *count = answer.count;
    }
    answer.refusal
}

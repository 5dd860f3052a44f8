//! An answer of the solve in a record: the refusal number and the count, and apart from them four
//! slots, each of the updates, the mark and the pose.
ghost use Rattle.std.specs.Prelude.{◌≡◌, ◌≤◌};
ghost use Rattle.replay_stages.specs.AnswerRecords.{slot_agrees, slots_agree, answer_agrees};

use frames::pose::Pose;
use lambdatwist::solve::Answer;
use replay_records::Record;
use replay_records::agreement::Compared;

#[tactic(auto, unfolding(crate::specs::AnswerRecords::slot_agrees))]
fn slot_agrees(pose: Pose, updates: u32, lifted: bool, s: &Record, at: usize) -> bool
    requires { at ≤ 656 }
    ensures { result ≡ slot_agrees pose updates lifted s.now at }
{
    updates.agrees(s, at) & lifted.agrees(s, at + 8) & pose.agrees(s, at + 16)
}

fn slots_agree(
    poses: [Pose; 4],
    updates: [u32; 4],
    lifted: [bool; 4],
    s: &Record,
    at: usize,
) -> bool
    requires { at ≤ 320 }
    ensures { result ≡ slots_agree poses updates lifted s.now at }
{
    let first = slot_agrees(poses[0], updates[0], lifted[0], s, at);
    let second = slot_agrees(poses[1], updates[1], lifted[1], s, at + 112);
    let third = slot_agrees(poses[2], updates[2], lifted[2], s, at + 224);
    let fourth = slot_agrees(poses[3], updates[3], lifted[3], s, at + 336);
    first & second & third & fourth
}

/// Whether the answer is the record's: the refusal number and the count begin at `at`, the slots at
/// `slots`.
#[tactic(auto, unfolding(crate::specs::AnswerRecords::answer_agrees))]
pub fn answer_agrees(answer: Answer, s: &Record, at: usize, slots: usize) -> bool
    requires { (at ≤ 752) × (slots ≤ 320) }
    ensures { result ≡ answer_agrees answer s.now at slots }
{
    let Answer {
        refusal,
        count,
        poses,
        updates,
        lifted,
    } = answer;
    let numbers = refusal.agrees(s, at) & count.agrees(s, at + 8);
    numbers & slots_agree(poses, updates, lifted, s, slots)
}

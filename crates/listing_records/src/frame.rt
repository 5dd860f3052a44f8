//! The lines of a frame: its solve, the choice of a pose and the poses.
ghost use Rattle.std.specs.Prelude.{◌≡◌, ◌+◌, ◌≤◌, ◌++◌, min, length};
ghost use Rattle.choice.specs.Answer.{place};
ghost use Rattle.listing.specs.Lines.{Written};
ghost use Rattle.listing_records.specs.FrameLines.{pose_lines, answer_lines, frame_lines};

use arrayvec::ArrayVec;
use choice::choose::{Choice, choose};
use frames::frame::Frame;
use lambdatwist::solve::{Answer, solve};
use linalg::vector3::Vector3;
use listing::line::{Line, Slot, put_line};

// A frame has at most five lines, of at most 320 bytes.
pub(crate) const FRAME: usize = 1600;

// The place of the chosen pose, from 1, or 0 where none is chosen.
fn place_of(choice: Choice) -> u32
    ensures { result ≡ place choice }
{
    choice.map_or(0, |best| best.place)
}

// Puts a line for each pose of an answer.
fn put_poses<const N: usize>(out: &mut ArrayVec<u8, N>, number: u64, answer: Answer)
    requires { length out.old.items + 1280 ≤ N }
    ensures text { out.new.items
        ≡ out.old.items
        ++ pose_lines number answer.poses answer.updates answer.lifted (min answer.count 4) }
    ensures upper_bound { length out.new.items ≤ length out.old.items + 1280 }
{
    for index in 0..answer.count.min(4) {
        let slot = Slot {
            pose: answer.poses[index as usize],
            updates: answer.updates[index as usize],
            lifted: answer.lifted[index as usize],
        };
        put_line(
            out,
            Line::Pose {
                number,
                place: index + 1,
                slot,
            },
        );
    }
}

// Puts the lines of an answer of the solver, with the choice by the checking target.
#[tactic(auto, using(listing::proofs::Writing::appended), unfolding(crate::specs::FrameLines::answer_lines))]
fn put_answer<const N: usize>(
    out: &mut ArrayVec<u8, N>,
    number: u64,
    answer: Answer,
    target: Vector3,
    bearing: Vector3,
)
    requires { length out.old.items + 1600 ≤ N }
    ensures text { out.new.items
        ≡ out.old.items ++ answer_lines number answer target bearing }
    ensures upper_bound { length out.new.items ≤ length out.old.items + 1600 }
{
    let Answer {
        refusal,
        count,
        poses,
        ..
    } = answer;
    if refusal != 0 {
        put_line(out, Line::Refused { number, refusal });
    } else {
        let best = place_of(choose(poses, count, target, bearing));
        put_line(
            out,
            Line::Accepted {
                number,
                count,
                best,
            },
        );
        put_poses(out, number, answer);
    }
}

/// Puts the lines of a frame: its solve, and the answer. Where fewer than 1,600 bytes are left,
/// which every frame's lines fit in, it puts nothing.
#[tactic(auto, using(listing::proofs::Writing::written, listing::proofs::Writing::not_written), unfolding(crate::specs::FrameLines::frame_lines))]
pub fn put_frame<const N: usize>(out: &mut ArrayVec<u8, N>, number: u64, frame: Frame)
    ensures { Written N 1600 out.old.items (frame_lines number frame) out.new.items }
{
    if out.remaining_capacity() >= FRAME {
        let Frame {
            world,
            bearings,
            target,
            bearing,
        } = frame;
        put_answer(out, number, solve(world, bearings), target, bearing);
    }
}

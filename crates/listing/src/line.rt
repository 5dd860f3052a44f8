//! The lines of the listing.
ghost use Rattle.std.specs.Prelude.{◌≡◌, ◌+◌, ◌≤◌, ◌++◌, length};
ghost use Rattle.listing.specs.Lines.{Written, text};

use crate::digits::put_number;
use crate::put::put_text;
use crate::words::put_words;
use arrayvec::ArrayVec;
use frames::pose::Pose;

// A line has at most so many bytes.
const LINE: usize = 320;

/// A slot of an answer: a pose, the updates of its depths, and whether a pair of roots that it came
/// from was lifted.
#[derive(Clone, Copy)]
pub struct Slot {
    pub pose: Pose,
    pub updates: u32,
    pub lifted: bool,
}

/// A line, by the numbers and the slot that stand in it.
#[derive(Clone, Copy)]
pub enum Line {
    /// `poses v1`
    Header,
    /// `N refused R`
    Refused { number: u64, refusal: u32 },
    /// `N poses K best J`
    Accepted { number: u64, count: u32, best: u32 },
    /// `N.J updates U`, twelve words (the rotation by columns, the translation), and ` lifted` or
    /// ` plain`
    Pose { number: u64, place: u32, slot: Slot },
    /// `stop R at N`
    Stop { refusal: u32, number: u64 },
    /// `end N`
    End { records: u64 },
}

// Puts a line for which there is room.
#[tactic(auto, unfolding(crate::specs::Lines::header_line, crate::specs::Lines::refused_line, crate::specs::Lines::accepted_line, crate::specs::Lines::mark_text, crate::specs::Lines::pose_line, crate::specs::Lines::stop_line, crate::specs::Lines::end_line))]
fn put<const N: usize>(out: &mut ArrayVec<u8, N>, line: Line)
    requires { length out.old.items + 320 ≤ N }
    ensures text { out.new.items ≡ out.old.items ++ text line }
    ensures upper_bound { length out.new.items ≤ length out.old.items + 320 }
{
    match line {
        Line::Header => put_text(out, "poses v1\n"),
        Line::Refused { number, refusal } => {
            put_number(out, number);
            put_text(out, " refused ");
            put_number(out, u64::from(refusal));
            put_text(out, "\n");
        }
        Line::Accepted {
            number,
            count,
            best,
        } => {
            put_number(out, number);
            put_text(out, " poses ");
            put_number(out, u64::from(count));
            put_text(out, " best ");
            put_number(out, u64::from(best));
            put_text(out, "\n");
        }
        Line::Pose {
            number,
            place,
            slot,
        } => {
            let Slot {
                pose,
                updates,
                lifted,
            } = slot;
            put_number(out, number);
            put_text(out, ".");
            put_number(out, u64::from(place));
            put_text(out, " updates ");
            put_number(out, u64::from(updates));
            put_words(out, pose);
            put_text(out, if lifted { " lifted" } else { " plain" });
            put_text(out, "\n");
        }
        Line::Stop { refusal, number } => {
            put_text(out, "stop ");
            put_number(out, u64::from(refusal));
            put_text(out, " at ");
            put_number(out, number);
            put_text(out, "\n");
        }
        Line::End { records } => {
            put_text(out, "end ");
            put_number(out, records);
            put_text(out, "\n");
        }
    }
}

/// Puts a line behind what waits, or nothing where fewer than 320 bytes are left, which every line
/// fits in.
#[tactic(auto, using(crate::proofs::Writing::written, crate::proofs::Writing::not_written))]
pub fn put_line<const N: usize>(out: &mut ArrayVec<u8, N>, line: Line)
    ensures { Written N 320 out.old.items (text line) out.new.items }
{
    if out.remaining_capacity() >= LINE {
        put(out, line);
    }
}

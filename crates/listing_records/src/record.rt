//! What is listed of a record, and how the run goes on after it: a wrong length and a record that
//! is cut short stop it, the rest go on to the next record.
ghost use Rattle.std.specs.Prelude.{◌≡◌, ◌+◌, ◌≤◌, ◌++◌, length};
ghost use Rattle.records.specs.Record.{record_at};
ghost use Rattle.listing.specs.Lines.{Written, roomy};
ghost use Rattle.listing_records.specs.RecordLines.{turn_lines, turn_course, course_of};
ghost use Rattle.listing_records.specs.Places.{Stored, WrittenAt, roomy_at};

use crate::frame::{FRAME, put_frame};
use arrayvec::ArrayVec;
use listing::line::{Line, put_line};
use records::record::{Record, read};
use records::refusal::RecordRefusal;

/// How the run goes on.
#[derive(Clone, Copy, Debug, PartialEq, Eq)]
pub enum Course {
    /// What waits is written: there is no room for a record's lines, and nothing was put.
    Write,
    /// More is read: no record is there whole, and nothing was put.
    Read,
    /// The record's lines were put; the next record begins at this position.
    Next(usize),
    /// The closing line was put: the run is over.
    Closed,
}

/// The position after what was put, and how the run goes on.
#[derive(Clone, Copy, Debug, PartialEq, Eq)]
pub struct Listed(pub usize, pub Course);

// Puts the lines of what stands next in the input: the record `number`, after `listed` others.
// Where more may still come, the input's end and a record that is cut short wait.
#[tactic(auto, using(listing::proofs::Writing::appended), unfolding(crate::specs::RecordLines::turn_lines, crate::specs::RecordLines::turn_course, crate::specs::RecordLines::waits, crate::specs::RecordLines::record_lines, crate::specs::RecordLines::following))]
fn put_found<const N: usize>(
    out: &mut ArrayVec<u8, N>,
    ended: bool,
    listed: u64,
    number: u64,
    found: Record,
) -> Course
    requires { length out.old.items + 1600 ≤ N }
    ensures text { out.new.items ≡ out.old.items ++ turn_lines ended listed number found }
    ensures upper_bound { length out.new.items ≤ length out.old.items + 1600 }
    ensures result_value { result ≡ turn_course ended found }
{
    match found {
        Record::End if !ended => Course::Read,
        Record::Stop {
            refusal: RecordRefusal::Short,
        } if !ended => Course::Read,
        Record::End => {
            put_line(out, Line::End { records: listed });
            Course::Closed
        }
        Record::Stop { refusal } => {
            let refusal = refusal.number();
            put_line(out, Line::Stop { refusal, number });
            Course::Closed
        }
        Record::Skip { refusal, next } => {
            let refusal = refusal.number();
            put_line(out, Line::Refused { number, refusal });
            Course::Next(next)
        }
        Record::Accepted { frame, next } => {
            put_frame(out, number, frame);
            Course::Next(next)
        }
    }
}

/// Puts the lines of what stands at `start` in the input, of which `input` is what has been read,
/// behind what `out` holds. Where fewer than 1,600 bytes are left, it puts nothing.
#[tactic(auto, using(listing::proofs::Writing::written, listing::proofs::Writing::not_written), unfolding(crate::specs::RecordLines::course_of))]
pub fn append_record<const N: usize>(
    input: &[u8],
    start: usize,
    ended: bool,
    out: &mut ArrayVec<u8, N>,
    listed: u64,
    number: u64,
) -> Course
    ensures written { Written N 1600 out.old.items
        (turn_lines ended listed number (record_at input.now start)) out.new.items }
    ensures result_value { result
        ≡ course_of (roomy N 1600 out.old.items) ended (record_at input.now start) }
{
    if out.remaining_capacity() < FRAME {
        return Course::Write;
    }
    put_found(out, ended, listed, number, read(input, start))
}

// Stores bytes from a position on, and returns the next one.
#[tactic(auto, using(crate::proofs::Places::stored))]
fn store(out: &mut [u8], at: usize, bytes: &[u8]) -> usize
    requires { at + length bytes.now ≤ length out.old }
    ensures { Stored out.old at bytes.now result out.new }
{
    let end = at + bytes.len();
    out[at..end].copy_from_slice(bytes);
    end
}

/// Puts the lines that `append_record` puts into a slice of any length, from `at` on; its other
/// bytes stay. Where fewer than 1,600 bytes are left from `at` on, it puts nothing and returns
/// `at`.
#[tactic(auto, using(crate::proofs::Places::not_written_at), unfolding(crate::specs::RecordLines::course_of))]
pub fn put_record(
    input: &[u8],
    start: usize,
    ended: bool,
    out: &mut [u8],
    at: usize,
    listed: u64,
    number: u64,
) -> Listed
    ensures written { WrittenAt 1600 out.old at
        (turn_lines ended listed number (record_at input.now start)) result.0 out.new }
    ensures result_value { result.1
        ≡ course_of (roomy_at 1600 out.old at) ended (record_at input.now start) }
{
    if out.len().saturating_sub(at) < FRAME {
        return Listed(at, Course::Write);
    }
    let mut lines: ArrayVec<u8, FRAME> = ArrayVec::new();
    let course = append_record(input, start, ended, &mut lines, listed, number);
    Listed(store(out, at, lines.as_slice()), course)
}

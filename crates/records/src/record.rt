//! Reading one record: its questions, in their order.
ghost use Rattle.std.specs.Prelude.{◌≡◌, ◌+◌, ◌≤◌, length};
ghost use Rattle.records.specs.Format.{part, big_endian};
ghost use Rattle.records.specs.Record.{record_at};

use crate::frame::frame_at;
use crate::refusal::RecordRefusal;
use byteorder::{BigEndian, ByteOrder};
use frames::frame::Frame;

/// What stands at a position of the input.
#[derive(Clone, Copy)]
pub enum Record {
    /// No byte: the input ends there.
    End,
    /// Refused by its length, or cut short: where a further record would begin is not known.
    Stop { refusal: RecordRefusal },
    /// A whole record, refused by its version; the next begins at `next`.
    Skip { refusal: RecordRefusal, next: usize },
    /// A whole record, and the frame in it; the next begins at `next`.
    Accepted { frame: Frame, next: usize },
}

// The length that the record at `at` begins with.
fn length_at(s: &[u8], at: usize) -> u16
    requires { at + 2 ≤ length s.now }
    ensures { result ≡ big_endian (part s.now at 2) }
{
    BigEndian::read_u16(&s[at..])
}

/// The record at `at` in an input that ends where `s` does.
#[tactic(auto, unfolding(crate::specs::Record::record_at))]
pub fn read(s: &[u8], at: usize) -> Record
    ensures { result ≡ record_at s.now at }
{
    if s.len() <= at {
        return Record::End;
    }
    let left = s.len() - at;
    if left < 2 {
        return Record::Stop {
            refusal: RecordRefusal::Short,
        };
    }
    let length = length_at(s, at);
    if length != 193 {
        return Record::Stop {
            refusal: RecordRefusal::Length,
        };
    }
    if left - 2 < 193 {
        return Record::Stop {
            refusal: RecordRefusal::Short,
        };
    }
    let next = at + 195;
    let version = s[at + 2];
    if version != 1 {
        return Record::Skip {
            refusal: RecordRefusal::Version,
            next,
        };
    }
    Record::Accepted {
        frame: frame_at(s, at + 3),
        next,
    }
}

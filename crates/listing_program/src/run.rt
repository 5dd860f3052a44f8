//! The run: records are listed one after another, what waits is written, and the input is read on,
//! as each turn asks for.
ghost use Rattle.std.specs.Prelude.{◌≡◌, ◌%◌, ◌≤◌, length, take};
ghost use Rattle.listing_program.specs.Goes.{Reads, Steps};

use crate::stream::{Filling, Streams, fill, flush};
use arrayvec::ArrayVec;
use listing::line::{Line, put_line};
use listing_records::record::{Course, append_record};
use std::io::{Read, Write};

/// How far the run has come.
#[derive(Clone, Copy, Debug, Default, PartialEq, Eq)]
pub struct State {
    /// How many bytes of the input's buffer are filled.
    pub filled: usize,
    /// Where in it the next record begins.
    pub next: usize,
    /// How many records have been listed.
    pub listed: u64,
    /// Whether the input has ended.
    pub ended: bool,
}

// Reads on, from the buffer's begin where all of it has been listed. `None` where that fails.
fn read_on<R: Read, W, E: Write>(
    streams: &mut Streams<R, W, E>,
    input: &mut [u8],
    state: State,
) -> Option<State>
    ensures reads { Reads (length input.old) state.filled state.next state.listed result }
    ensures filled_kept { take state.filled input.new ≡ take state.filled input.old }
{
    if input.len() <= state.next {
        return Some(State {
            filled: 0,
            next: 0,
            ended: false,
            ..state
        });
    }
    match fill(streams, input, state.filled) {
        Filling::Filled(filled) => Some(State {
            filled,
            ended: false,
            ..state
        }),
        Filling::End => Some(State {
            ended: true,
            ..state
        }),
        Filling::Failed => None,
    }
}

// One turn: what stands next in the input is listed, and the run goes on as that asks for. `None`
// where it is over.
fn step<R: Read, W: Write, E: Write, const N: usize>(
    streams: &mut Streams<R, W, E>,
    input: &mut [u8],
    out: &mut ArrayVec<u8, N>,
    state: State,
) -> Option<State>
    ensures steps { Steps N input.old out.old.items out.new.items state result }
    ensures filled_kept { take state.filled input.new ≡ take state.filled input.old }
{
    let State {
        filled,
        next,
        listed,
        ended,
    } = state;
    let number = listed.wrapping_add(1);
    let ready = filled.min(input.len());
    match append_record(&input[..ready], next, ended, out, listed, number) {
        Course::Write => {
            flush(streams, out.as_slice())?;
            out.clear();
            Some(state)
        }
        Course::Read => {
            flush(streams, out.as_slice())?;
            out.clear();
            read_on(streams, input, state)
        }
        Course::Next(next) => Some(State {
            next,
            listed: number,
            ..state
        }),
        Course::Closed => {
            let _ = flush(streams, out.as_slice());
            None
        }
    }
}

fn used_up<E: Write>(errors: &mut E) {
    let _ = errors.write_all(b"poses: the run has used up its turns\n");
}

// A proved loop has to end, and nothing says that the input does: the turns are counted, up to a
// number that no run uses up. A record never lies across the end of the input's buffer, and a
// frame's lines always fit the listing's.
pub(crate) fn run<R: Read, W: Write, E: Write, const N: usize>(
    streams: &mut Streams<R, W, E>,
    input: &mut [u8],
    out: &mut ArrayVec<u8, N>,
)
    requires { (length input.old % 195 ≡ 0) × (1600 ≤ N) }
{
    put_line(out, Line::Header);
    let mut state = State::default();
    for _ in 0..u64::MAX {
        let Some(next) = step(streams, input, out, state) else {
            return;
        };
        state = next;
    }
    used_up(&mut streams.errors);
}

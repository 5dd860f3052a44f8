//! How the program is called: what its arguments ask for, and the answer to it.
ghost use Rattle.std.specs.Prelude.{◌≡◌};
ghost use Rattle.listing_program.specs.Requests.{request_of, request_of_one};

use crate::list;
use crate::stream::Streams;
use std::env::FillError;
use std::io::{Read, Write};
use std::rt::Env;

/// What the arguments ask for.
#[derive(Clone, Copy, Debug, PartialEq, Eq)]
pub enum Request {
    /// The listing of standard input.
    Listing,
    Help,
    Version,
    /// No call that the program knows: it says how it is called.
    Usage,
}

// What one argument asks for.
fn requested_by(argument: &[u8]) -> Request
    ensures { result ≡ request_of_one argument.now }
{
    if argument == b"--help".as_slice() {
        Request::Help
    } else if argument == b"--version".as_slice() {
        Request::Version
    } else {
        Request::Usage
    }
}

/// What is asked for, by the number of words that the program is started with, its own name among
/// them, and the first of the others.
pub fn requested(words: usize, argument: &[u8]) -> Request
    ensures { result ≡ request_of words argument.now }
{
    if words < 2 {
        Request::Listing
    } else if 2 < words {
        Request::Usage
    } else {
        requested_by(argument)
    }
}

fn put<R, W: Write, E: Write>(text: &[u8], streams: &mut Streams<R, W, E>) {
    if let Err(error) = streams.output.write_all(text) {
        failures::say(&mut streams.errors, "poses: cannot write the reply", error);
    }
}

fn put_help<R, W: Write, E: Write>(streams: &mut Streams<R, W, E>) {
    put(
        b"usage: poses < FILE > LISTING\n\
        Reads frame records of 195 bytes each and lists the poses of every record, or the\n\
        number of the question by which it is refused. docs/QUESTIONS.md has the formats and\n\
        the questions, docs/USING.md what a refusal asks of you.\n\
        A listing is whole only with its last line, `end ..` or `stop ..`. Where that is\n\
        missing, standard error says why, unless a signal ended the run.\n",
        streams,
    );
}

/// Lists the input, or says what is asked for in its place.
pub fn answer<R: Read, W: Write, E: Write>(request: Request, streams: &mut Streams<R, W, E>) {
    match request {
        Request::Listing => list(streams),
        Request::Help => put_help(streams),
        Request::Version => put(b"poses 0.3.3\n", streams),
        Request::Usage => {
            let _ = streams.errors.write_all(b"usage: poses < FILE > LISTING\n");
        }
    }
}

// Whether the program is started with a word at a place, which counts from 0, its own name's.
fn is_given<V: Env>(env: &V, place: usize) -> bool {
    !matches!(env.arg(place, &mut []), Err(FillError::NotPresent))
}

// The number of words that the program is started with.
fn words<V: Env>(env: &V) -> usize {
    (0..usize::MAX)
        .find(|place| !is_given(env, *place))
        .unwrap_or(usize::MAX)
}

/// The program. An argument that does not fit the array is none that it knows, and is taken as an
/// empty one.
pub fn start<V: Env, R: Read, W: Write, E: Write>(env: &V, streams: &mut Streams<R, W, E>) {
    let mut argument = [0u8; 16];
    let length = env.arg(1, &mut argument).unwrap_or(0);
    answer(requested(words(env), &argument[..length]), streams);
}

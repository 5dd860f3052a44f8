//! The input and the listing's output, in parts.
ghost use Rattle.std.specs.Prelude.{◌≡◌, length, take};
ghost use Rattle.listing_program.specs.Goes.{Fills};

use std::io;
use std::io::{ErrorKind, Read, Write};

/// What a run reads, what it writes, and what it says on standard error.
#[derive(Drop)]
pub struct Streams<R, W, E> {
    pub input: R,
    pub output: W,
    pub errors: E,
}

/// What reading once leads to.
#[derive(Clone, Copy, Debug, PartialEq, Eq)]
pub enum Filling {
    /// So many bytes of the buffer are filled. A read that a signal interrupts fills none.
    Filled(usize),
    /// The input has ended.
    End,
    Failed,
}

// Reads once into `input`, of which `filled` bytes are filled already. Where that fails, standard
// error says why; a buffer that is full already does not occur.
pub(crate) fn fill<R: Read, W, E: Write>(
    streams: &mut Streams<R, W, E>,
    input: &mut [u8],
    filled: usize,
) -> Filling
    ensures fills { Fills (length input.old) filled result }
    ensures filled_kept { take filled input.new ≡ take filled input.old }
{
    if input.len() <= filled {
        return failed(&mut streams.errors, io::Error::from(ErrorKind::StorageFull));
    }
    match streams.input.read(&mut input[filled..]) {
        Ok(0) => Filling::End,
        Ok(n) => Filling::Filled(filled + n),
        Err(error) => {
            if error.kind() == ErrorKind::Interrupted {
                return Filling::Filled(filled);
            }
            failed(&mut streams.errors, error)
        }
    }
}

fn failed<E: Write>(errors: &mut E, error: io::Error) -> Filling
    ensures { result ≡ Filling.Failed }
{
    failures::say(errors, "poses: cannot read the input", error);
    Filling::Failed
}

// Writes what waits, and answers whether all of it was written. Where it was not, standard error
// says why.
pub(crate) fn flush<R, W: Write, E: Write>(
    streams: &mut Streams<R, W, E>,
    waiting: &[u8],
) -> Option<()> {
    match streams.output.write_all(waiting) {
        Ok(()) => Some(()),
        Err(error) => {
            failures::say(
                &mut streams.errors,
                "poses: cannot write the listing",
                error,
            );
            None
        }
    }
}

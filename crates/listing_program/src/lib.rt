//! The listing of a whole input: frame records are read from a reader, and the lines of each are
//! written to a writer. The input is read in parts and the listing is written in parts, so that
//! neither's length is bounded. A run that ends without a closing line says why on a writer of its
//! own, standard error, unless a signal ended it.
#![tactic(auto)]

pub mod command;
mod run;
pub mod stream;

use arrayvec::ArrayVec;
use std::io::{Read, Write};
use stream::Streams;

/// Lists the records that the input gives.
pub fn list<R: Read, W: Write, E: Write>(streams: &mut Streams<R, W, E>) {
    // 64 records, so that a record never lies across the buffer's end.
    let mut input = [0u8; 12480];
    // Some ten frames' lines.
    let mut out: ArrayVec<u8, 16384> = ArrayVec::new();
    run::run(streams, &mut input, &mut out);
}

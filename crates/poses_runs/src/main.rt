//! Goes through the replies of the program `poses`, the first as the argument in args asks for, and
//! lists the files of data/ as it lists its input, the name of each before its listing. A stored
//! run is held to standard output alone, so what is said on standard error goes into a file of the
//! run's folder, and is written out last. tests/poses/make.py made the files, and what is expected:
//! the listings from the Rust's answers.
#![tactic(auto)]

use listing_program::command::{answer, requested, start};
use listing_program::stream::Streams;
use std::io::{Read, Write};
use std::rt::{Env, Files};
use std::{fs, io};

// The files, in the order of the listings; the last is a folder, from which a read fails.
const LISTED: [&str; 16] = [
    "empty",
    "lone_byte",
    "two_bytes",
    "length_192",
    "length_194",
    "length_194_alone",
    "truncated",
    "truncated_by_one",
    "version_2",
    "answers",
    "behind",
    "lifted",
    "buffer",
    "buffer_and_byte",
    "thousand",
    ".",
];

// Lists a file, behind its name. One that does not open is named among the errors and passed over.
// An error is that of the writing of the name: the file is not listed then. No other error comes.
fn list<F: Files + Print, E: Write>(rt: &F, errors: &mut E, name: &str) -> io::Result<()> {
    let file = match fs::open(rt, name) {
        Ok(file) => file,
        Err(error) => {
            failures::say(errors, name, error);
            return Ok(());
        }
    };
    rt.println(name)?;
    let mut streams = Streams {
        input: file,
        output: io::writer(rt),
        errors,
    };
    listing_program::list(&mut streams);
    Ok(())
}

fn reply<V: Env, R: Read, W: Write, E: Write>(env: &V, streams: &mut Streams<R, W, E>) {
    start(env, streams);
    // Standard input, which is empty.
    answer(requested(1, b""), streams);
    answer(requested(2, b"--help"), streams);
    answer(requested(2, b"--version"), streams);
    answer(requested(2, b"--versions"), streams);
    answer(requested(3, b"--help"), streams);
}

// Writes out what a file holds. An error is that of opening it, reading it or writing: what was
// written before stays written. No other error comes.
fn show<F: Files + Print>(rt: &F, name: &str) -> io::Result<()> {
    io::copy(&mut fs::open(rt, name)?, &mut io::writer(rt))?;
    Ok(())
}

// An error is that of the file in the place of standard error, where it cannot be made or read
// again, or of the first write that fails: what was written before stays written, and nothing after
// it is done. No other error comes.
fn main(rt: HostRuntime) -> io::Result<()> {
    let mut said = fs::create(&rt, "said")?;
    let mut streams = Streams {
        input: rt.stdin(),
        output: rt.stdout(),
        errors: &mut said,
    };
    reply(&rt, &mut streams);
    for name in LISTED {
        list(&rt, &mut said, name)?;
    }
    show(&rt, "said")
}

//! Runs the functions on the records in data/ and says of each file how many answers differ from
//! the stored bits: data/exact has the answers of exact arithmetic to the single operations
//! (tests/ieee754), data/rust the Rust's, and to what the Rust does not have, the choice, the solve
//! about the first target and plates, those of reference/. A file holds records of words: the
//! arguments, then the answer. That each record is compared as the definitions say is proved; that
//! records are read, and differences counted, no contract can say, so the files of data/control
//! (tests/replay) have records that must differ: of sqrt's three one is right, one wrong in its
//! last bit and one cut short; of frame's four one is right, one wrong in a bit of slot 1, one in
//! its refusal number and one in slot 1's mark; of about's four two are right, an answer and a
//! refusal, and two wrong in a bit of the origin; of choice_about's five two are right, a choice
//! and a refusal; of plate_scale's six two, a scaled plate and a refusal, and one has an exponent
//! beyond 32 bits; of plate_solve's two one, the other wrong in the last word of slot 1; of
//! plate_preview's seven three, an answer, a refused solve and a refused replacement.
#![tactic(auto)]

ghost use Rattle.std.specs.Prelude.{◌≡◌, ◌≤◌, length, take, IfOk, OnErr};
ghost use Rattle.std.specs.Io.KnownBytes.{Consumes};
ghost use Rattle.replay.specs.Reading.{Shrinks};

use replay_about::chosen_about::ChosenAbout;
use replay_about::solved_about::SolvedAbout;
use replay_doubles::operations::Operation;
use replay_doubles::roots::Finder;
use replay_pieces::chosen::Chosen;
use replay_pieces::pieces::Piece;
use replay_plates::handlings::Handling;
use replay_records::replayed::Replayed;
use replay_stages::stages::Stage;
use std::io::{Read, Write};
use std::rt::Files;
use std::{fs, io};

/// What a step through a file found: a record that agrees, one that differs or is cut short, or
/// none.
#[derive(Clone, Copy, Debug, PartialEq, Eq)]
pub enum Found {
    Same,
    Different,
    End,
}

// Reads until `buf` is full or the file ends, and answers how many bytes were read. An error is the
// file's own: what was read before it stands in `buf`. No other error comes.
fn read_full<F: Read>(file: &mut F, buf: &mut [u8]) -> io::Result<usize>
    ensures bound { IfOk result (λ n. n ≤ length buf.old) }
    ensures read { IfOk result (λ n.
        Consumes (F.remaining file.old) (F.remaining file.new) (take n buf.new)) }
    ensures failed { OnErr result (Shrinks (F.remaining file.old) (F.remaining file.new)) }
{
    let mut done = 0;
    while done < buf.len() {
        let n = file.read(&mut buf[done..])?;
        if n == 0 {
            break;
        }
        done += n;
    }
    Ok(done)
}

// Reads the next record and tries it. An error is the file's own: the record is not tried. No other
// error comes.
fn step<F: Read, S: Replayed>(file: &mut F, subject: S) -> io::Result<Found>
    ensures { OnErr result (Shrinks (F.remaining file.old) (F.remaining file.new)) }
{
    let mut record = [0u8; 768];
    let n = subject.length();
    let got = read_full(file, &mut record[..n])?;
    Ok(if got == 0 {
        Found::End
    } else if got == n && subject.holds(&record) {
        Found::Same
    } else {
        Found::Different
    })
}

/// How many records of a file were compared, and how many of them differ.
#[derive(Clone, Copy, Debug, PartialEq, Eq)]
pub struct Tally {
    pub compared: u64,
    pub differ: u64,
}

// Steps through a file. A proved loop has to end, and nothing says that a file does, so the count
// of records bounds it. An error is the file's own. No other error comes.
fn count<F: Read, S: Replayed>(file: &mut F, subject: S) -> io::Result<Tally>
    ensures { IfOk result (λ tally. tally.differ ≤ tally.compared) }
{
    let mut differ = 0;
    for compared in 0..u64::MAX {
        match step(file, subject)? {
            Found::Same => {}
            Found::Different => differ += 1,
            Found::End => return Ok(Tally { compared, differ }),
        }
    }
    Ok(Tally {
        compared: u64::MAX,
        differ,
    })
}

// A file that does not open is named on standard error and passed over. An error is that of a read
// of the file, which then has no line, or that of the writing of its line, of which a part may
// stand written. No other error comes.
fn compare<R: Files + Print, E: Write, S: Replayed>(
    rt: &R,
    errors: &mut E,
    subject: S,
    path: &str,
) -> io::Result<()> {
    let mut file = match fs::open(rt, path) {
        Ok(file) => file,
        Err(error) => {
            failures::say(errors, path, error);
            return Ok(());
        }
    };
    let Tally { compared, differ } = count(&mut file, subject)?;
    replay_words::report::report(&mut io::writer(rt), path.as_bytes(), compared, differ)
}

// The files of records that must differ. An error is that of the first read or write that fails:
// what was written before stays written, and nothing after it is done. No other error comes.
fn control<R: Files + Print, E: Write>(rt: &R, errors: &mut E) -> io::Result<()> {
    compare(rt, errors, Operation::Sqrt, "control/sqrt.bin")?;
    compare(rt, errors, Stage::Frame, "control/frame.bin")?;
    compare(rt, errors, SolvedAbout, "control/about.bin")?;
    compare(rt, errors, ChosenAbout, "control/choice_about.bin")?;
    for (handling, path) in [
        (Handling::Scale, "control/plate_scale.bin"),
        (Handling::Solve, "control/plate_solve.bin"),
        (Handling::Preview, "control/plate_preview.bin"),
    ] {
        compare(rt, errors, handling, path)?;
    }
    Ok(())
}

// The files of the answers of exact arithmetic. Of errors the same holds as of `control`.
fn exact<R: Files + Print, E: Write>(rt: &R, errors: &mut E) -> io::Result<()> {
    for (operation, path) in [
        (Operation::Abs, "exact/abs.bin"),
        (Operation::Copysign, "exact/copysign.bin"),
        (Operation::Max, "exact/max.bin"),
        (Operation::Clamp, "exact/clamp.bin"),
        (Operation::IsFinite, "exact/is_finite.bin"),
        (Operation::TotalOrder, "exact/total_order.bin"),
        (Operation::TotalCmp, "exact/total_cmp.bin"),
        (Operation::Sqrt, "exact/sqrt.bin"),
        (Operation::Cbrt, "exact/cbrt.bin"),
        (Operation::Fma, "exact/fma.bin"),
    ] {
        compare(rt, errors, operation, path)?;
    }
    Ok(())
}

// The files of the Rust's answers, and of reference/'s. Of errors the same holds as of `control`.
fn rust<R: Files + Print, E: Write>(rt: &R, errors: &mut E) -> io::Result<()> {
    for (finder, path) in [
        (Finder::Quadratic, "rust/quadratic.bin"),
        (Finder::Cubic, "rust/cubic.bin"),
        (Finder::FastCbrt, "rust/fast_cbrt.bin"),
    ] {
        compare(rt, errors, finder, path)?;
    }
    for (piece, path) in [
        (Piece::Refine, "rust/refine.bin"),
        (Piece::Ray, "rust/ray_fits.bin"),
        (Piece::Near, "rust/near.bin"),
        (Piece::Project, "rust/project.bin"),
        (Piece::WorldBasis, "rust/basis.bin"),
        (Piece::Edges, "rust/edges.bin"),
        (Piece::Push, "rust/push.bin"),
    ] {
        compare(rt, errors, piece, path)?;
    }
    for (stage, path) in [
        (Stage::Eig, "rust/eig.bin"),
        (Stage::RowCrosses, "rust/row_crosses.bin"),
        (Stage::Condition, "rust/condition.bin"),
        (Stage::Frame, "rust/frame.bin"),
    ] {
        compare(rt, errors, stage, path)?;
    }
    compare(rt, errors, Chosen, "rust/choice.bin")?;
    compare(rt, errors, SolvedAbout, "rust/about.bin")?;
    compare(rt, errors, ChosenAbout, "rust/choice_about.bin")?;
    for (handling, path) in [
        (Handling::Make, "rust/plate_make.bin"),
        (Handling::Replace, "rust/plate_replace.bin"),
        (Handling::Exchange, "rust/plate_exchange.bin"),
        (Handling::Scale, "rust/plate_scale.bin"),
        (Handling::Solve, "rust/plate_solve.bin"),
        (Handling::Preview, "rust/plate_preview.bin"),
    ] {
        compare(rt, errors, handling, path)?;
    }
    Ok(())
}

// Of errors the same holds as of `control`.
fn main(rt: HostRuntime) -> io::Result<()> {
    let mut errors = rt.stderr();
    control(&rt, &mut errors)?;
    exact(&rt, &mut errors)?;
    rust(&rt, &mut errors)
}

//! The line that a program writes of one file of stored answers.
ghost use Rattle.std.specs.Prelude.{◌≡◌, OnOk, OnErr};
ghost use Rattle.std.specs.Io.KnownBytes.{Appends};
ghost use Rattle.replay_words.specs.Report.{Grows, report_line};

use itoa::Buffer;
use std::io;
use std::io::{ErrorKind, Write};

// Writes bytes. An error is the writer's own, or that it takes no more; what it held stays, and
// what it took before is behind that. Of an error std's `write_all` promises nothing.
fn put<W: Write>(output: &mut W, bytes: &[u8]) -> io::Result<()>
    ensures written { OnOk result (Appends (W.contents output.old) (W.contents output.new) bytes.now) }
    ensures failed { OnErr result (Grows (W.contents output.old) (W.contents output.new)) }
{
    let mut written = 0;
    while written < bytes.len() {
        match output.write(&bytes[written..]) {
            Ok(0) => return Err(io::Error::from(ErrorKind::WriteZero)),
            Ok(n) => written += n,
            Err(error) => return Err(error),
        }
    }
    Ok(())
}

/// Writes "NAME N compared, M differ". An error is the writer's own, or that it takes no more; what
/// it held stays, and what it took before is behind that.
pub fn report<W: Write>(output: &mut W, name: &[u8], compared: u64, differ: u64) -> io::Result<()>
    ensures written { OnOk result (Appends (W.contents output.old) (W.contents output.new)
        (report_line name.now compared differ)) }
    ensures failed { OnErr result (Grows (W.contents output.old) (W.contents output.new)) }
{
    let mut digits = Buffer::new();
    put(output, name)?;
    put(output, b" ")?;
    put(output, digits.format(compared).as_bytes())?;
    put(output, b" compared, ")?;
    put(output, digits.format(differ).as_bytes())?;
    put(output, b" differ\n")
}

//! What a program says on standard error of a read, a write or a file that failed.
#![tactic(auto)]

use std::fmt::InlineText;
use std::io;
use std::io::Write;

/// Writes a line: what failed, as the caller names it, a colon and the system's words for the
/// error, without the number that std puts after them. Where that cannot be written, nothing is
/// said.
pub fn say<E: Write>(errors: &mut E, what: &str, error: io::Error) {
    let text = InlineText::<256>::of(error);
    let all = text.as_str();
    let words = match all.split_once(" (os error ") {
        Some((before, _)) => before,
        None => all,
    };
    let _ = writeln!(errors, "{what}: {words}");
}

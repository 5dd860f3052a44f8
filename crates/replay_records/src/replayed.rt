//! What the records of a file are of.
ghost use Rattle.std.specs.Prelude.{◌≡◌, ℕ, ◌*◌, ◌≤◌, Bool, List};

use crate::Record;

/// A function whose answers are stored: how long its records are, and whether it gives their
/// answers.
pub trait Replayed: Copy {
    ghost words: { Self → ℕ };

    ghost answered: { Self → List ℕ → Bool };

    /// The bytes of a record.
    fn length(self) -> usize
        ensures value { result ≡ 8 * words self }
        ensures within { result ≤ 768 };

    /// Whether the function gives the record's answer.
    fn holds(self, s: &Record) -> bool
        ensures { result ≡ answered self s.now };
}

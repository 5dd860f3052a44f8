//! Why a record is refused.
ghost use Rattle.std.specs.Prelude.{◌≡◌};
ghost use Rattle.records.specs.Record.{number_of};

use std::error::Error;
use std::fmt;

/// Why a record is refused.
#[derive(Clone, Copy, Debug, PartialEq, Eq)]
pub enum RecordRefusal {
    /// The length is not 193.
    Length,
    /// The version is not 1.
    Version,
    /// A byte of the record is missing.
    Short,
}

impl RecordRefusal {
    /// The number of the question that refuses.
    pub fn number(self) -> u32
        ensures { result ≡ number_of self }
    {
        match self {
            RecordRefusal::Length => 7,
            RecordRefusal::Version => 8,
            RecordRefusal::Short => 9,
        }
    }
}

impl From<RecordRefusal> for u32 {
    ghost from_gives = { λ refusal n. n ≡ number_of refusal };

    fn from(refusal: RecordRefusal) -> u32 {
        refusal.number()
    }
}

impl fmt::Display for RecordRefusal {
    fn fmt<W: fmt::Write>(&self, f: &mut fmt::Formatter<W>) -> fmt::Result {
        f.write_str(match self {
            RecordRefusal::Length => "the record's length is not 193",
            RecordRefusal::Version => "the record's version is not 1",
            RecordRefusal::Short => "bytes of the record are missing",
        })
    }
}

impl Error for RecordRefusal {}

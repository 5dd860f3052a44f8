//! Frame records, read from a lent slice. A record is two bytes of length, a version byte and 24
//! doubles, all big-endian.
#![tactic(auto)]

mod double;
pub mod frame;
pub mod record;
pub mod refusal;

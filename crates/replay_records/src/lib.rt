//! Records of stored answers: what stands in a record by its place in bytes, and whether a value is
//! the one that stands there, bit for bit. A matrix stands by its columns, a bool as 0 or 1.
#![tactic(auto)]

pub mod agreement;
pub mod contents;
pub mod replayed;

/// A record, shorter ones with zeros behind them. The longest is that of the preview of a moved
/// target.
pub type Record = [u8; 768];

//! IEEE 754's scaleB: 2^k times a double, for k from -64 to 64, where the exact result is zero or
//! in the normal range. specs/Scalable says where that is.
#![tactic(auto)]

pub mod reach;
pub mod scalable;
pub mod times;

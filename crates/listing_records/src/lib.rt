//! What is listed of a record, and whether the run goes on after it.
#![tactic(auto)]

pub mod frame;
pub mod record;

//! What a moved target would do: the poses and the squared edges of a plate with one target
//! replaced, to be looked at before the replacement is accepted.
#![tactic(auto)]

pub mod preview;

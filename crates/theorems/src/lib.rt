//! Theorems about the whole solve: their statements are in specs/, their proofs in proofs/. The
//! crate has no code of its own.
#![tactic(auto)]

//! The solve without marks: its definitions are in specs/, and in proofs/ that the solve gives the
//! same answer once its marks are forgotten. The crate has no code of its own.
#![tactic(auto)]

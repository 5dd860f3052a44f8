//! The refinement of three depths: from pose/p3p/common.rs.
#![tactic(auto)]

pub mod refine_depths;

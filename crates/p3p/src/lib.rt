//! The functions of this repository for C and Rust to link (`rt lib` here), each under a plain name
//! with the prefix p3p_. include/p3p.h declares them.
#![tactic(auto)]

pub mod about_first;
pub mod choose;
pub mod plate;
pub mod plate_preview;
pub mod record;
pub mod roots;
pub mod single;
pub mod solve;

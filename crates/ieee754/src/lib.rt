//! The operations of IEEE 754 on doubles that the solver needs beside + - * / and comparisons. Each
//! public function equals a definition of specs/ for every double, NaN and infinities included. The
//! whole-number parts of the cube root and of the fused multiply-add are in the crates
//! `ieee754_parts` and `ieee754_roots`.
#![tactic(auto)]

pub mod abs;
pub mod bits;
pub mod cbrt;
pub mod clamp;
pub mod copysign;
pub mod fma;
pub mod fma_square;
pub mod is_finite;
pub mod max;
pub mod sqrt;
pub mod total_cmp;

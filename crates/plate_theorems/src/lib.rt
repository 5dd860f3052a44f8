//! Theorems about plates: specs/ states them, proofs/ proves them. There is no code here.
#![tactic(auto)]

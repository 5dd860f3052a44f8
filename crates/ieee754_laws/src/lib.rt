// Laws of the single operations, in proofs/. The crate has no code of its own.
#![tactic(auto)]

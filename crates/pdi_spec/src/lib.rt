// The crate has definitions, in specs/, and what is claimed and proved of them, in proofs/: no code.
#![tactic(auto)]

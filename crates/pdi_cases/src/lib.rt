// The crate has cases of the definitions of pdi_spec, in specs/: no code.
#![tactic(auto)]

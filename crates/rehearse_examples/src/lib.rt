//! Worked examples of rehearsals: each row of `proofs/` is computed from the definitions of `rehearse` when this crate is
//! proved. No program depends on it.
#![tactic(auto)]

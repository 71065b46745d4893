// No code: `specs/` defines the net angle of a target, and `proofs/` has its laws.
#![tactic(auto)]

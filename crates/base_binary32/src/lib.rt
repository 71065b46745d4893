// No code: `proofs/` has laws of f32 values and their patterns, for the crates whose code reads patterns.
#![tactic(auto)]

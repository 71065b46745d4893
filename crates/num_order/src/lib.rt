// No code: `proofs/` has laws of the order of f32 values: which operations keep it, and what lies between two values.
#![tactic(auto)]

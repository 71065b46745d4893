// No code: `specs/` defines a counted walk that may stop early, and `proofs/` has its laws.
#![tactic(auto)]

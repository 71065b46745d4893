// No code: `specs/` defines running totals of a map's solid tiles and the calls on them, and `proofs/` has their laws. map_area has the functions.
#![tactic(auto)]

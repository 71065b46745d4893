// No code: `specs/` has the tile of a coordinate, and `proofs/` the law that quantizing leaves the tiles of a box's corners as they were.
#![tactic(auto)]

// The walk of a box on a map.
#![tactic(auto)]

mod moves;
mod way;

pub use moves::{Body, move_box, walk_box};

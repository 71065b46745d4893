// What a player's input says, and the directions that it speaks of.
#![tactic(auto)]

mod direction;
mod inputs;

pub use direction::{Angle, MoveDirection};
pub use inputs::{aim, hooks, jumps, move_direction, target_dir};

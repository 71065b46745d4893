// How a character moves on the map, and up to whom it touches.
#![tactic(auto)]

mod touching;
mod walking;

pub use touching::touches;
pub use walking::{player_turns, ramped_move, rest_at};

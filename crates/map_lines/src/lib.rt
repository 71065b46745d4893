// The walk of a line on a map, and how long any walk may be.
#![tactic(auto)]

mod lines;
mod open;
mod points;

pub use lines::{check_line, walk_line};
pub use points::{min, point_at};

// A walk of more turns is refused with 9.
pub const MOST_TURNS: u64 = 65536;

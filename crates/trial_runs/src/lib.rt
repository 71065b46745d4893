// Trial players for a tuning, run on the numbers of a world in place.
#![tactic(auto)]

mod checks;
mod entering;
mod players;
mod running;
mod telling;
mod trials;

pub use entering::{JOIN, TARGET};
pub use telling::ROW;
pub use trials::trial;

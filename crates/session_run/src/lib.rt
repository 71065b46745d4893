// A session: how it starts, what a line of its text does to it, and its lines run one after another.
#![tactic(auto)]

mod lines;
mod session_lines;
mod start;

pub use lines::{MOST_CALLS, run_lines};
pub use session_lines::{Session, Turned};
pub use start::{MOST_READ, begin};

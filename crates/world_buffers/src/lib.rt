// The calls on a world that is kept as the numbers of a lent buffer, and what is read of it.
#![tactic(auto)]

mod buffers;
mod leaving;
mod readers;
mod stepping;
mod telling;

pub use buffers::{fresh_in, input_in, join_in, leave_in, tune_in};
pub use readers::{floor_mark_in, player_input_in, record_in, seated_in, tuning_in};
pub use stepping::step_in;
pub use telling::write_step;

// A sender and a screen that are kept as the numbers of lent buffers: what is passed along for the calls on a world, and what a screen does with it.
#![tactic(auto)]

mod screens;
mod sending;

pub use screens::{receive_in, screen_fresh_in, shown_in};
pub use sending::{send_leave_in, send_step_in, send_tune_in, sender_fresh_in};

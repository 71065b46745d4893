// How a character moves by itself.
#![tactic(auto)]

mod controls;

pub use controls::{JumpState, clamp_speed, control_of, grounded, jump, landed, walk};

// The net angle of a target: a guess that is mostly seen to be right, and a scan where it is not.
#![tactic(auto)]

mod angle;
mod few;
mod guess;
mod near;

pub use angle::net_angle;

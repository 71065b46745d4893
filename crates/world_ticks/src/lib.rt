// The first half of a step: all tick.
#![tactic(auto)]

mod ticking;

pub use ticking::tick_all;

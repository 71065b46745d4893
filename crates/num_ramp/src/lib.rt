// The power rule, and the velocity ramp by it.
#![tactic(auto)]

mod power;
mod ramp;

pub use power::powf;
pub use ramp::velocity_ramp;

// The constants at the head of lib.rs.
#![tactic(auto)]

pub const CHARACTER_SIZE: f32 = 28.0;

pub const DISABLE_HOOK_DISTANCE: f32 = 46.0;

pub const MAX_VELOCITY: f32 = 6000.0;

// For how many ticks a hook holds somebody: 1.2 s with 50 ticks a second.
pub const MAX_HOOK_GRAB_TIME: u32 = 60;

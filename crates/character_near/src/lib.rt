// The player walk among the places that it may touch.
#![tactic(auto)]

mod soonest;
mod walk;

pub use soonest::Touch;
pub use walk::walk_near;

// The seats of a world, and the join.
#![tactic(auto)]

mod joins;
mod seats;

pub use joins::{in_reach, join, point_of};
pub use seats::{fresh, place_of, slot_at, with_slot};

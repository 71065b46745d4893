// The search for a way on a world that is kept as the numbers of a lent buffer, which it only reads.
#![tactic(auto)]

mod searching;
mod stepping;

pub use searching::{WAY, search_in};

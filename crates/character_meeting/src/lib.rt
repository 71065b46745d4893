// How characters push and pull each other.
#![tactic(auto)]

mod meeting;

pub use meeting::{HookPull, is_beyond, meet, pull_on};

// The square root: `root`, and the tables from which it guesses.
#![tactic(auto)]

mod segments;
mod square_root;

pub use square_root::root;

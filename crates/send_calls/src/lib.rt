// Send only surprises, by value: a copy's step, what a sender passes along for each of the five calls, and what a screen does with it.
#![tactic(auto)]

mod copies;
mod due;
mod screen;
mod sender;
mod sending;

pub use copies::no_copies;
pub use screen::{fresh_screen, receive};
pub use sender::{Called, send};

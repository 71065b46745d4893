// The calls of a world but join and step: leave, input and tune, and what is read of it.
#![tactic(auto)]

mod calls;
mod leaving;
mod readers;

pub use calls::{input, leave, tune};
pub use leaving::vacate;
pub use readers::read;

// The ticks and moves of a step on plain arrays, from a world's numbers to the records' rows: no slot is kept or handed on.
#![tactic(auto)]

mod advancing;
mod moving;
mod reading;
mod ticking;

pub use advancing::advance;

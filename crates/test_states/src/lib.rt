// A character as words, for the test programs that read one.
#![tactic(auto)]

mod states;

pub use states::{character_of, is_character};

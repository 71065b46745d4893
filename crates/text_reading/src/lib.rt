// What a session's text has after its map: call lines.
#![tactic(auto)]

mod call_lines;
mod code;
mod values;

pub use call_lines::next_call;
pub use code::decode;

// The lines that a session writes: those of its values, and those of a call's answer.
#![tactic(auto)]

mod answers;
mod line;
mod output_lines;
mod value;

pub use answers::put_told;
pub use output_lines::{MOST_LINE, put_answer, put_heading};

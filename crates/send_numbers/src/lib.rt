// The sender's copies, a screen and what is passed along as the numbers of a buffer, and back.
#![tactic(auto)]

mod copies;
mod passing;
mod reading;
mod screens;

pub use copies::{COPY, SENDER, copy_at, decode_copies, encode_copies};
pub use passing::{MESSAGE, PASSED, encode_items};
pub use reading::read_passed;
pub use screens::{SCREEN, decode_screen, encode_screen};

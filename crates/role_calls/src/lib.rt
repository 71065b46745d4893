// The line at which a world is called: every call and every read names its role, and what that doesn't allow is told 13 and does nothing.
#![tactic(auto)]

mod asking;
mod numbers;

pub use asking::{call_as, make_call_as, make_change_as, read_as};
pub use numbers::may_ask;

// The hook of a character: what it is, what becomes of it in a tick, and what it does to a velocity.
#![tactic(auto)]

mod dragging;
mod flying;
mod hook;
mod hooking;

pub use flying::Way;
pub use hook::{CharacterId, HOOK_ATTACHED_GRABBED, HOOK_RETRACTED, Hook};
pub use hooking::{Nearest, nearer};

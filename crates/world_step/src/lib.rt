// Step: all tick, then all move and are quantized, then deadly tiles remove; and any of the five calls on a world.
#![tactic(auto)]

mod calling;
mod moving;
mod removing;
mod steps;

pub use calling::{make_call, make_change, run_call, step, world_after};
pub use moving::unpublished;

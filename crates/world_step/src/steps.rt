// Step: every present id by rising id ticks; then by rising id each moves and is quantized; then who stands on deadly tiles is removed.
ghost use Rattle.std.specs.Prelude.{◌≡◌, T, replicate};
ghost use Rattle.map_tiles.specs.Map.{is_map};
ghost use Rattle.character.specs.Tick.{seats};
ghost use Rattle.world.specs.Step.{unpublished, tick_all, move_all, turned, stepped_in, step_on, step};
ghost use Rattle.base_turns.specs.Turns.{next};
ghost use Rattle.world_step.specs.Moves.{moving_of};

use crate::moving::{Moves, move_all, unpublished};
use crate::removing::remove_dying;
use character::{SEATS, Slot};
use game_refusals::Refusal;
use game_tuning::{Tuning, tuning_of};
use map_tiles::{Sides, is_map};
use world::{Published, Records, World};
use world_ticks::tick_all;

// A step in place. A refusal leaves the world as it was.
pub fn make_step(world: &mut World, sides: Sides, tiles: &[u8]) -> Result<Records, Refusal>
    ensures { stepped_in seats world.new result ≡ step seats world.old sides tiles.now }
{
    if is_map(sides, tiles) {
        return step_on(world, sides, tiles);
    }
    Err(Refusal::BadMap)
}

pub fn no_records() -> [Published; SEATS]
    ensures { result ≡ replicate seats unpublished }
{
    [unpublished(); SEATS]
}

// A step on a valid map.
fn step_on(world: &mut World, sides: Sides, tiles: &[u8]) -> Result<Records, Refusal>
    requires { T (is_map sides tiles.now) }
    ensures { stepped_in seats world.new result ≡ step_on seats world.old sides tiles.now }
{
    let moved = move_ticked(world.slots, sides, tiles, tuning_of(world.tunings))?;
    let slots = moved.slots;
    let records = moved.records;
    world.slots = slots;
    let removed = remove_dying(world, sides, tiles);
    Ok(Records { records, removed })
}

// All tick, then all move.
fn move_ticked(
    slots: [Slot; SEATS],
    sides: Sides,
    tiles: &[u8],
    tuning: Tuning,
) -> Result<Moves, Refusal>
    requires { T (is_map sides tiles.now) }
    ensures { next (λ ss. move_all seats ss sides tiles.now tuning) (tick_all seats slots sides tiles.now tuning) ≡ turned moving_of result }
{
    let ticked = tick_all(slots, sides, tiles, tuning)?;
    move_all(ticked, sides, tiles, tuning)
}

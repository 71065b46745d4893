// What a call does to a world: in place, and by value.
ghost use Rattle.std.specs.Prelude.{[], ◌≡◌, replicate};
ghost use Rattle.character.specs.Tick.{seats};
ghost use Rattle.world.specs.Answered.{answered};
ghost use Rattle.world.specs.Removal.{listed};
ghost use Rattle.world.specs.Run.{without_records, ran};
ghost use Rattle.world.specs.Step.{unpublished, stepped, stepped_in, step};
ghost use Rattle.world_step.specs.Changes.{IsChange};

use crate::removing::nobody;
use crate::steps::{make_step, no_records};
use game_records::PlayerInput;
use game_refusals::Refusal;
use map_tiles::Sides;
use world::{AfterStep, Call, Records, World};
use world_calls::{input, leave, tune};
use world_joins::join;

// A call in place. A refusal leaves the world as it was.
pub fn make_call(
    world: &mut World,
    sides: Sides,
    tiles: &[u8],
    call: Call,
) -> Result<Records, Refusal>
    ensures { stepped_in seats world.new result ≡ ran seats sides tiles.now world.old call }
{
    match call {
        Call::Step => make_step(world, sides, tiles),
        _ => {
            make_change(world, sides, tiles, call)?;
            Ok(nothing_told())
        }
    }
}

// A join, leave, input or tune in place: nothing is recorded, and nobody removed.
pub fn make_change(world: &mut World, sides: Sides, tiles: &[u8], call: Call) -> Result<(), Refusal>
    requires { IsChange call }
    ensures { without_records seats (answered world.new result) ≡ ran seats sides tiles.now world.old call }
{
    match call {
        Call::Join { id, x, y } => join(world, sides, tiles, id, x, y),
        Call::Leave { id } => leave(world, id),
        Call::Input {
            id,
            direction,
            target_x,
            target_y,
            jump,
            hook,
        } => {
            let values = PlayerInput {
                direction,
                target_x,
                target_y,
                jump,
                hook,
            };
            input(world, id, values)
        }
        Call::Step => Ok(()),
        Call::Tune { index, value } => tune(world, index, value),
    }
}

// Nothing is recorded and nobody removed.
fn nothing_told() -> Records
    ensures { result ≡ record { records = replicate seats unpublished; removed = listed seats [] } }
{
    Records {
        records: no_records(),
        removed: nobody(),
    }
}

pub fn run_call(
    mut world: World,
    sides: Sides,
    tiles: &[u8],
    call: Call,
) -> Result<AfterStep, Refusal>
    ensures { stepped seats world result ≡ ran seats sides tiles.now world call }
{
    let told = make_call(&mut world, sides, tiles, call)?;
    let records = told.records;
    let removed = told.removed;
    Ok(AfterStep {
        world,
        records,
        removed,
    })
}

// The world after a call by value. A refused call leaves it as it was.
pub fn world_after(world: World, answer: Result<AfterStep, Refusal>) -> World
    ensures { result ≡ (stepped seats world answer).world }
{
    match answer {
        Ok(after) => after.world,
        Err(_) => world,
    }
}

pub fn step(world: World, sides: Sides, tiles: &[u8]) -> Result<AfterStep, Refusal>
    ensures { stepped seats world result ≡ step seats world sides tiles.now }
{
    run_call(world, sides, tiles, Call::Step)
}

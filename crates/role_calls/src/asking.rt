// What each role may ask, and calls and reads by a role.
ghost use Rattle.std.specs.Prelude.{◌≡◌};
ghost use Rattle.character.specs.Tick.{seats};
ghost use Rattle.world.specs.Answered.{answered};
ghost use Rattle.world.specs.ReadAnswer.{read_answer};
ghost use Rattle.world.specs.Run.{without_records};
ghost use Rattle.world.specs.Step.{stepped, stepped_in};
ghost use Rattle.world_step.specs.Changes.{IsChange};
ghost use Rattle.role_rule.specs.Roles.{is_input_for, is_shown, allowed, called_as, read_as};

use game_refusals::Refusal;
use map_tiles::Sides;
use role_rule::{Ask, Role};
use world::{AfterStep, Call, Query, Reading, Records, World};
use world_calls::read;
use world_step::{make_call, make_change, run_call};

pub fn call_as(
    role: Role,
    world: World,
    sides: Sides,
    tiles: &[u8],
    call: Call,
) -> Result<AfterStep, Refusal>
    ensures { stepped seats world result ≡ called_as seats role sides tiles.now world call }
{
    if allowed(role, Ask::Call(call)) {
        return run_call(world, sides, tiles, call);
    }
    Err(Refusal::NotAllowed)
}

// A call in place, by a role. A refusal leaves the world as it was.
pub fn make_call_as(
    role: Role,
    world: &mut World,
    sides: Sides,
    tiles: &[u8],
    call: Call,
) -> Result<Records, Refusal>
    ensures { stepped_in seats world.new result ≡ called_as seats role sides tiles.now world.old call }
{
    if allowed(role, Ask::Call(call)) {
        return make_call(world, sides, tiles, call);
    }
    Err(Refusal::NotAllowed)
}

// A join, leave, input or tune in place, by a role. A refusal leaves the world as it was.
pub fn make_change_as(
    role: Role,
    world: &mut World,
    sides: Sides,
    tiles: &[u8],
    call: Call,
) -> Result<(), Refusal>
    requires { IsChange call }
    ensures { without_records seats (answered world.new result) ≡ called_as seats role sides tiles.now world.old call }
{
    if allowed(role, Ask::Call(call)) {
        return make_change(world, sides, tiles, call);
    }
    Err(Refusal::NotAllowed)
}

pub fn read_as(role: Role, world: World, query: Query) -> Result<Reading, Refusal>
    ensures { read_answer result ≡ read_as seats role world query }
{
    if allowed(role, Ask::Read(query)) {
        return read(world, query);
    }
    Err(Refusal::NotAllowed)
}

pub fn allowed(role: Role, ask: Ask) -> bool
    ensures { result ≡ allowed role ask }
{
    match role {
        Role::Referee => true,
        Role::Seat(id) => match ask {
            Ask::Call(call) => is_input_for(id, call),
            Ask::Read(_) => false,
        },
        Role::Board => match ask {
            Ask::Call(_) => false,
            Ask::Read(query) => is_shown(query),
        },
    }
}

// A seat's own call.
fn is_input_for(seat: u32, call: Call) -> bool
    ensures { result ≡ is_input_for seat call }
{
    match call {
        Call::Join { .. } => false,
        Call::Leave { .. } => false,
        Call::Input { id, .. } => 0 <= id && id as u32 == seat,
        Call::Step => false,
        Call::Tune { .. } => false,
    }
}

// What is shown on a board.
fn is_shown(query: Query) -> bool
    ensures { result ≡ is_shown query }
{
    match query {
        Query::Record(_) => true,
        Query::FloorMark(_) => true,
        Query::PlayerInput(_) => false,
        Query::Tuning(_) => false,
    }
}

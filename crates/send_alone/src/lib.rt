// The step of a seat that is alone in its world, without a walk over the other seats: a tick and a move that meet nobody.
#![tactic(auto)]

ghost use Rattle.std.specs.Prelude.{◌≡◌, T, Ok};
ghost use Rattle.map_tiles.specs.Map.{is_map};
ghost use Rattle.send_alone.specs.Alone.{flown_to, hooked_alone, rest_alone, move_alone, step_alone};

use character::Character;
use character_hook::{Hook, Way};
use character_motion::{clamp_speed, grounded};
use character_walk::{player_turns, ramped_move};
use game_records::{CharacterCore, PlayerInput};
use game_refusals::Refusal;
use game_tuning::Tuning;
use map_lines::MOST_TURNS;
use map_tiles::{Sides, is_map};
use num_vec2::vec2;

// The record that a step takes of a seat that is alone, as its last record and its input have it.
pub fn step_alone(
    core: CharacterCore,
    input: PlayerInput,
    sides: Sides,
    tiles: &[u8],
    tuning: Tuning,
) -> Result<CharacterCore, Refusal>
    ensures { result ≡ step_alone sides tiles.now tuning core input }
{
    if is_map(sides, tiles) {
        let me = Character::from_net(core);
        let pos = me.pos;
        let steered = me.steer(grounded(sides, tiles, pos), input, tuning);
        let fired = steered.hook;
        let hook = end_of(fired.flown(pos, sides, tiles, tuning)?);
        let moved = move_alone(hooked_alone(steered, hook, tuning), sides, tiles, tuning)?;
        return moved.to_net();
    }
    Err(Refusal::BadMap)
}

// A hook that flew meets nobody.
fn end_of(way: Way) -> Hook
    ensures { Ok result ≡ flown_to (Ok way) }
{
    match way {
        Way::Still(hook) => hook,
        Way::Along(_, _, hook) => hook,
    }
}

// After the flight: the drag of an attached hook, the count of a held one, and the clamp.
fn hooked_alone(mut me: Character, hook: Hook, tuning: Tuning) -> Character
    ensures { result ≡ hooked_alone me hook tuning }
{
    let pos = me.pos;
    let direction = me.move_direction;
    let vel = hook.dragged(pos, me.vel, direction, tuning);
    let clamped = clamp_speed(vel);
    me = me.with_hook(hook.hold(tuning.hook_hold));
    me.vel = clamped;
    me
}

fn move_alone(
    mut me: Character,
    sides: Sides,
    tiles: &[u8],
    tuning: Tuning,
) -> Result<Character, Refusal>
    requires { T (is_map sides tiles.now) }
    ensures { result ≡ move_alone sides tiles.now tuning me }
{
    let from = me.pos;
    let body = ramped_move(sides, tiles, from, me.vel, tuning)?;
    me.pos = rest_alone(from, body.pos, tuning.player_collision)?;
    me.vel = body.vel;
    Ok(me)
}

// The player walk with nobody in the way: nothing but its length can refuse it.
fn rest_alone(from: vec2, to: vec2, player_collision: f32) -> Result<vec2, Refusal>
    ensures { result ≡ rest_alone from to player_collision }
{
    if player_collision != 0.0 {
        if player_turns(vec2::distance(from, to)) > MOST_TURNS {
            return Err(Refusal::TooFar);
        }
    }
    Ok(to)
}

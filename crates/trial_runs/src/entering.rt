// The joins of a trial, one after another, on the numbers of a world.
ghost use Rattle.std.specs.Prelude.{◌≡◌, ◌*◌, ◌/◌, T, length, replicate};
ghost use Rattle.map_tiles.specs.Map.{is_map};
ghost use Rattle.character.specs.Tick.{seats};
ghost use Rattle.world_numbers.specs.Decoding.{decoding};
ghost use Rattle.trial_rule.specs.Trial.{no_player, enter_all};
ghost use Rattle.trial_rule.specs.Calls.{join_count, target_count, entrants};
ghost use Rattle.trial_runs.specs.InPlace.{IsWorld, Enters};

use crate::players::entered;
use character::SEATS;
use game_refusals::Refusal;
use map_tiles::Sides;
use trial_rule::Player;
use world_buffers::join_in;
use world_joins::place_of;

// How many numbers a join has, and a target.
pub const JOIN: usize = 3;

pub const TARGET: usize = 2;

fn no_player() -> Player
    ensures { result ≡ no_player }
{
    Player {
        joined: false,
        column: 0,
        row: 0,
        x: 0,
        stayed: false,
        distance: 0,
        step: 0,
    }
}

fn no_players() -> [Player; SEATS]
    ensures { result ≡ replicate seats no_player }
{
    [no_player(); SEATS]
}

pub fn enter_all(
    world: &mut [i32],
    sides: Sides,
    tiles: &[u8],
    joins: &[i32],
    targets: &[i32],
) -> Result<[Player; SEATS], Refusal>
    requires { IsWorld world.old × T (is_map sides tiles.now) × (length targets.now ≡ target_count * (length joins.now / join_count)) }
    ensures { Enters (enter_all seats sides tiles.now (entrants joins.now targets.now) (record { world = decoding seats world.entry.now; players = replicate seats no_player })) result world.exit.now }
{
    let mut players = no_players();
    for i in 0..joins.len() / JOIN {
        let at = JOIN * i;
        let id = joins[at];
        let x = joins[at + 1];
        let y = joins[at + 2];
        join_in(world, sides, tiles, id, x, y)?;
        let to = TARGET * i;
        players[place_of(SEATS, id)] = entered(sides, x, y, targets[to], targets[to + 1]);
    }
    Ok(players)
}

// What a run tells, as a row of the result: the steps done, then every seat.
ghost use Rattle.std.specs.Prelude.{◌≡◌};
ghost use Rattle.trial_rule.specs.Calls.{player_numbers, tried_numbers};

use base_rows::copy;
use character::SEATS;
use trial_rule::{Player, Tried};

// How many numbers a seat has in a row, and a row.
const TOLD: usize = 3;

pub const ROW: usize = 1 + TOLD * SEATS;

fn player_numbers(player: Player) -> [i32; TOLD]
    ensures { result ≡ player_numbers player }
{
    if player.joined {
        return [1, player.distance as i32, player.step as i32];
    }
    [0i32; TOLD]
}

// By index: a row is put at a place that the index gives.
pub fn tried_numbers(tried: Tried) -> [i32; ROW]
    ensures { result ≡ tried_numbers tried }
{
    let players = tried.players;
    let mut row = [0i32; ROW];
    row[0] = tried.steps as i32;
    for j in 0..SEATS {
        let told = player_numbers(players[j]);
        copy(&mut row, 1 + TOLD * j, &told);
    }
    row
}

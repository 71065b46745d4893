// The trial: refusals, the joins, and the run of each tuning into its row of the result.
ghost use Rattle.std.specs.Prelude.{map, ◌≡◌, ◌*◌, ◌/◌, ◌%◌, T, length};
ghost use Rattle.game_refusals.specs.Refusals.{number_of_answer};
ghost use Rattle.game_tuning.specs.Tuning.{tuning_count};
ghost use Rattle.map_tiles.specs.Map.{is_map};
ghost use Rattle.character.specs.Tick.{seats};
ghost use Rattle.world_numbers.specs.Decoding.{decoding};
ghost use Rattle.world_numbers.specs.Encoding.{each};
ghost use Rattle.trial_rule.specs.Trial.{tuned_to, tried};
ghost use Rattle.trial_rule.specs.Calls.{row_count, tunings_in, tuning_rows, tried_numbers, trial_in};
ghost use Rattle.trial_runs.specs.InPlace.{IsWorld};

use crate::checks::{are_whole, trial_fault};
use crate::entering::enter_all;
use crate::running::run_tuning;
use crate::telling::{ROW, tried_numbers};
use base_rows::copy;
use character::SEATS;
use game_refusals::Refusal;
use game_tuning::TUNINGS;
use map_tiles::{Sides, count, is_map};
use trial_rule::Player;
use world_joins::fresh;
use world_numbers::{WORLD, encode};

pub fn trial(
    sides: Sides,
    tiles: &[u8],
    joins: &[i32],
    targets: &[i32],
    tunings: &[i32],
    steps: i32,
    res: &mut [i32],
) -> Result<(), Refusal>
    ensures { trial_in seats sides tiles.now joins.now targets.now tunings.now steps res.old ≡ record { number = number_of_answer result; result = res.new } }
{
    if !are_whole(joins.len(), targets.len(), tunings.len(), res.len()) {
        return Err(Refusal::BadLength);
    }
    if !is_map(sides, tiles) {
        return Err(Refusal::BadMap);
    }
    trial_fault(tunings, steps)?;
    let mut world = [0i32; WORLD];
    encode(fresh(), &mut world);
    let players = enter_all(&mut world, sides, tiles, joins, targets)?;
    let most = count(steps) as u16;
    run_all(&world, players, sides, tiles, tunings, most, res);
    Ok(())
}

// Each tuning from the same numbers.
// By index: a row is put at a place that the index gives.
fn run_all(
    start: &[i32],
    players: [Player; SEATS],
    sides: Sides,
    tiles: &[u8],
    tunings: &[i32],
    steps: u16,
    res: &mut [i32],
)
    requires { IsWorld start.now × T (is_map sides tiles.now) × (length tunings.now % tuning_count ≡ 0) × (length res.old ≡ row_count seats * tunings_in tunings.now) }
    ensures { res.new ≡ each tried_numbers (map (λ zs. tried seats sides tiles.now steps (tuned_to zs (record { world = decoding seats start.now; players = players }))) (tuning_rows tunings.now)) }
{
    for k in 0..tunings.len() / TUNINGS {
        let at = TUNINGS * k;
        let tried = run_tuning(
            start,
            players,
            sides,
            tiles,
            &tunings[at..at + TUNINGS],
            steps,
        );
        let row = tried_numbers(tried);
        copy(res, ROW * k, &row);
    }
}

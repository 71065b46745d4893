// Trial players for tunings. No world is lent, so no role is named.
ghost use Rattle.std.specs.Prelude.{◌≡◌};
ghost use Rattle.map_tiles.specs.Map.{sides_of};
ghost use Rattle.character.specs.Tick.{seats};
ghost use Rattle.trial_rule.specs.Calls.{trial_in};

use game_refusals::number_of_answer;
use map_tiles::Sides;

pub fn ponguriena_trial(
    width: u32,
    height: u32,
    tiles: &[u8],
    joins: &[i32],
    targets: &[i32],
    tunings: &[i32],
    steps: i32,
    res: &mut [i32],
) -> u32
    ensures { trial_in seats (sides_of width height) tiles.now joins.now targets.now tunings.now steps res.old ≡ record { number = result; result = res.new } }
{
    number_of_answer(trial_runs::trial(
        Sides { width, height },
        tiles,
        joins,
        targets,
        tunings,
        steps,
        res,
    ))
}

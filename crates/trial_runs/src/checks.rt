// When a trial is refused before its joins.
ghost use Rattle.std.specs.Prelude.{◌≡◌};
ghost use Rattle.game_refusals.specs.Refusals.{number_of_answer};
ghost use Rattle.character.specs.Tick.{seats};
ghost use Rattle.trial_rule.specs.Calls.{are_whole, tuning_rows, is_steps, is_trial, have_holds, trial_fault};

use crate::entering::{JOIN, TARGET};
use crate::telling::ROW;
use game_refusals::Refusal;
use game_tuning::{HOOK_HOLD, TUNINGS, is_hold};

// The most tunings, and the most steps.
const MOST_TUNINGS: usize = 8;

const MOST_STEPS: i32 = 3000;

// Whether the lengths of the buffers fit each other.
pub fn are_whole(joins: usize, targets: usize, tunings: usize, res: usize) -> bool
    ensures { result ≡ are_whole seats joins targets tunings res }
{
    joins % JOIN == 0
        && targets == TARGET * (joins / JOIN)
        && tunings % TUNINGS == 0
        && res % ROW == 0
        && res / ROW == tunings / TUNINGS
}

fn is_steps(steps: i32) -> bool
    ensures { result ≡ is_steps steps }
{
    0 <= steps && steps <= MOST_STEPS
}

fn is_trial(tunings: usize, steps: i32) -> bool
    ensures { result ≡ is_trial tunings steps }
{
    1 <= tunings && tunings <= MOST_TUNINGS && is_steps(steps)
}

// Whether every tuning's hold is one.
fn have_holds(tunings: &[i32]) -> bool
    ensures { result ≡ have_holds (tuning_rows tunings.now) }
{
    for k in 0..tunings.len() / TUNINGS {
        if !is_hold(tunings[TUNINGS * k + HOOK_HOLD]) {
            return false;
        }
    }
    true
}

// Refuses a trial before its joins.
pub fn trial_fault(tunings: &[i32], steps: i32) -> Result<(), Refusal>
    ensures { number_of_answer result ≡ trial_fault tunings.now steps }
{
    if !is_trial(tunings.len() / TUNINGS, steps) {
        return Err(Refusal::BadTrial);
    }
    if !have_holds(tunings) {
        return Err(Refusal::BadHold);
    }
    Ok(())
}

// The first half of a step: every present id by rising id ticks.
ghost use Rattle.std.specs.Prelude.{◌≡◌, T};
ghost use Rattle.map_tiles.specs.Map.{is_map};
ghost use Rattle.character.specs.Tick.{seats};
ghost use Rattle.world.specs.Step.{tick_all, turned};

use character::{AfterTick, SEATS, Slot, held_seat, places_of};
use game_refusals::Refusal;
use game_tuning::Tuning;
use map_tiles::Sides;

// Every present id by rising id ticks. Ticks move nobody, so the places of all are noted once; a pull is written at the seat that the hook holds.
pub fn tick_all(
    slots: [Slot; SEATS],
    sides: Sides,
    tiles: &[u8],
    tuning: Tuning,
) -> Result<[Slot; SEATS], Refusal>
    requires { T (is_map sides tiles.now) }
    ensures { tick_all seats slots sides tiles.now tuning ≡ turned (λ ss. ss) result }
{
    let places = places_of(slots);
    let present = places.present;
    let xs = places.xs;
    let ys = places.ys;
    let mut all = slots;
    for id in 0..SEATS {
        let slot = all[id];
        if slot.present {
            let old = slot.character;
            let input = slot.input;
            let own = old.tick_among(id, &present, &xs, &ys, sides, tiles, input, tuning)?;
            let me = own.me;
            let grounded = own.grounded;
            let hook = me.hook;
            let held = held_seat(hook, id);
            let other = all[held];
            let pull = other.pull_by(me, id, held, tuning);
            all[held] = other.pulled(pull, held);
            let mine = all[id];
            all[id] = mine.ticked(AfterTick { me, pull, grounded });
        }
    }
    Ok(all)
}

// The second half of a step: by rising id each moves and is quantized.
ghost use Rattle.std.specs.Prelude.{◌≡◌, T};
ghost use Rattle.map_tiles.specs.Map.{is_map};
ghost use Rattle.character.specs.Tick.{seats};
ghost use Rattle.world.specs.Step.{unpublished, move_all, turned};
ghost use Rattle.world_step.specs.Moves.{moving_of};

use character::{Character, SEATS, Slot, places_of};
use game_records::{CharacterCore, Tick};
use game_refusals::Refusal;
use game_tuning::Tuning;
use map_tiles::Sides;
use world::Published;

// The slots and the records after all moves.
#[derive(Clone, Copy)]
pub struct Moves {
    pub slots: [Slot; SEATS],
    pub records: [Published; SEATS],
}

pub fn unpublished() -> Published
    ensures { result ≡ unpublished }
{
    Published {
        present: false,
        core: CharacterCore {
            tick: 0,
            x: 0,
            y: 0,
            vel_x: 0,
            vel_y: 0,
            angle: 0,
            direction: 0,
            jumped: 0,
            hooked_player: 0,
            hook_state: 0,
            hook_tick: Tick(0),
            hook_x: 0,
            hook_y: 0,
            hook_dx: 0,
            hook_dy: 0,
        },
    }
}

// By rising id each moves and is quantized; where it is then is noted for those who move after it.
pub fn move_all(
    slots: [Slot; SEATS],
    sides: Sides,
    tiles: &[u8],
    tuning: Tuning,
) -> Result<Moves, Refusal>
    requires { T (is_map sides tiles.now) }
    ensures { move_all seats slots sides tiles.now tuning ≡ turned moving_of result }
{
    let places = places_of(slots);
    let present = places.present;
    let mut xs = places.xs;
    let mut ys = places.ys;
    let mut all = slots;
    let mut records = [unpublished(); SEATS];
    for j in 0..SEATS {
        let slot = all[j];
        if slot.present {
            let me = slot.character;
            let moved = me.move_among(j, &present, &xs, &ys, sides, tiles, tuning)?;
            let core = moved.to_net()?;
            let left = Character::from_net(core);
            xs[j] = left.pos.x;
            ys[j] = left.pos.y;
            all[j] = slot.with_character(left);
            let record = Published {
                present: true,
                core,
            };
            records[j] = record;
        }
    }
    Ok(Moves {
        slots: all,
        records,
    })
}

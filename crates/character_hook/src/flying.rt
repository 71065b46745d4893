// What the button does to a hook in a tick, how far it flies, and what it strikes on its way.
ghost use Rattle.std.specs.Prelude.{◌≡◌, T};
ghost use Rattle.map_tiles.specs.Map.{is_map};
ghost use Rattle.game_input.specs.Inputs.{target_dir, hooks};
ghost use Rattle.character_hook.specs.Hooking.{fire};
ghost use Rattle.character_hook.specs.Flying.{flown};

use crate::hook::Hook;
use crate::hooking::fly;
use game_input::{hooks, target_dir};
use game_records::PlayerInput;
use game_refusals::Refusal;
use game_tuning::Tuning;
use map_lines::walk_line;
use map_tiles::Sides;
use num_vec2::vec2;

// What a tick's flight comes to: a hook that stood still, or the way that it flew and the hook at its end.
#[derive(Clone, Copy)]
pub enum Way {
    Still(Hook),
    Along(vec2, vec2, Hook),
}

impl Hook {
    // The hook's button. Most ticks fire nothing: the target's direction, a root, is found only for a hook that is fired.
    pub fn fire_at_target(self, pos: vec2, input: PlayerInput) -> Hook
        ensures { result ≡ fire self (hooks input) pos (target_dir input) }
    {
        if hooks(input) {
            let Hook::Idle = self else {
                return self;
            };
            return self.fire(true, pos, target_dir(input));
        }
        Hook::Idle
    }

    // A hook that isn't flying leaves early. One that is goes its way, and may strike a tile on it.
    pub fn flown(
        self,
        pos: vec2,
        sides: Sides,
        tiles: &[u8],
        tuning: Tuning,
    ) -> Result<Way, Refusal>
        requires { T (is_map sides tiles.now) }
        ensures { result ≡ flown self pos sides tiles.now tuning }
    {
        let Hook::Flying(from, dir) = self else {
            return Ok(Way::Still(self.retract()));
        };
        let flight = fly(from, dir, pos, tuning);
        let to = flight.to;
        let flying = flight.hook;
        let hit = walk_line(sides, tiles, from, to)?;
        Ok(Way::Along(from, to, flying.strike(hit)))
    }
}

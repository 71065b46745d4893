// The record that is published of a character.
ghost use Rattle.std.specs.Prelude.{◌≡◌, ◌≤◌};
ghost use Rattle.character_hook.specs.Hook.{tick_of};
ghost use Rattle.character.specs.Records.{net_jumped, core_of, to_net};

use crate::Character;
use game_records::{CharacterCore, Tick};
use game_refusals::Refusal;
use num_convert::{round_to_i32, to_256ths};

// The largest tick that a record holds.
pub const MOST_TICK: u32 = 2147483647;

fn net_jumped(c: Character) -> i32
    ensures { result ≡ net_jumped c }
{
    if c.used_airjump {
        if c.jumped_already { 3 } else { 2 }
    } else {
        if c.jumped_already { 1 } else { 0 }
    }
}

impl Character {
    pub fn to_net(self) -> Result<CharacterCore, Refusal>
        ensures { result ≡ to_net self }
    {
        let hook = self.hook;
        if hook.tick() > MOST_TICK {
            return Err(Refusal::TickTooLarge);
        }
        Ok(core_of(self))
    }
}

// The record of a character whose tick fits it.
fn core_of(c: Character) -> CharacterCore
    requires { tick_of c.hook ≤ 2147483647 }
    ensures { result ≡ core_of c }
{
    let hook = c.hook;
    let angle = c.angle;
    let move_direction = c.move_direction;
    let hook_pos = hook.net_pos();
    let hook_dir = hook.net_dir();
    CharacterCore {
        tick: 0,
        x: round_to_i32(c.pos.x),
        y: round_to_i32(c.pos.y),
        vel_x: to_256ths(c.vel.x),
        vel_y: to_256ths(c.vel.y),
        angle: angle.to_net(),
        direction: move_direction.as_int(),
        jumped: net_jumped(c),
        hooked_player: hook.net_hooked_player(),
        hook_state: hook.net_state(),
        hook_tick: Tick(hook.tick() as i32),
        hook_x: round_to_i32(hook_pos.x),
        hook_y: round_to_i32(hook_pos.y),
        hook_dx: to_256ths(hook_dir.x),
        hook_dy: to_256ths(hook_dir.y),
    }
}

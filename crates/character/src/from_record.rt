// A character that is read from its record, and one that is made a record and read again.
ghost use Rattle.std.specs.Prelude.{◌≡◌};
ghost use Rattle.num_convert.specs.Convert.{i32_to_f32, from256ths};
ghost use Rattle.num_vec2.specs.Vec2.{vnew};
ghost use Rattle.character.specs.Records.{used_airjump_from_net, jumped_already_from_net, from_net, quantize, to_net};
ghost use Rattle.game_refusals.specs.Refusals.{number_of_answer};

use crate::Character;
use character_hook::Hook;
use game_input::{Angle, MoveDirection};
use game_records::CharacterCore;
use game_refusals::Refusal;
use num_convert::{cast_unsigned, from_256ths, i32_to_f32};
use num_vec2::vec2;

fn used_airjump_from_net(jumped: i32) -> bool
    ensures { result ≡ used_airjump_from_net jumped }
{
    cast_unsigned(jumped) / 2 % 2 == 1
}

fn jumped_already_from_net(jumped: i32) -> bool
    ensures { result ≡ jumped_already_from_net jumped }
{
    cast_unsigned(jumped) % 2 == 1
}

fn whole_pair(x: i32, y: i32) -> vec2
    ensures { result ≡ vnew (i32_to_f32 x) (i32_to_f32 y) }
{
    vec2::new(i32_to_f32(x), i32_to_f32(y))
}

fn pair_of_256ths(x: i32, y: i32) -> vec2
    ensures { result ≡ vnew (from256ths x) (from256ths y) }
{
    vec2::new(from_256ths(x), from_256ths(y))
}

impl Character {
    pub fn from_net(core: CharacterCore) -> Character
        ensures { result ≡ from_net core }
    {
        Character {
            pos: whole_pair(core.x, core.y),
            vel: pair_of_256ths(core.vel_x, core.vel_y),
            hook: Hook::from_net(
                core.hook_state,
                whole_pair(core.hook_x, core.hook_y),
                pair_of_256ths(core.hook_dx, core.hook_dy),
                core.hooked_player,
                core.hook_tick,
            ),
            jumped_already: jumped_already_from_net(core.jumped),
            used_airjump: used_airjump_from_net(core.jumped),
            angle: Angle::from_net(core.angle),
            move_direction: MoveDirection::from_int(core.direction),
        }
    }

    pub fn quantize(self) -> Result<Character, Refusal>
        ensures { (result ≡ quantize self) × (number_of_answer result ≡ number_of_answer (to_net self)) }
    {
        Ok(Character::from_net(self.to_net()?))
    }
}

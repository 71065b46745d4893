// What a player's input says.
ghost use Rattle.std.specs.Prelude.{◌≡◌};
ghost use Rattle.game_input.specs.Inputs.{move_direction, target_dir, aim, jumps, hooks};

use crate::direction::{Angle, MoveDirection};
use game_records::PlayerInput;
use num_convert::i32_to_f32;
use num_vec2::vec2;

pub fn move_direction(input: PlayerInput) -> MoveDirection
    ensures { result ≡ move_direction input }
{
    MoveDirection::from_int(input.direction)
}

// A pair of length 1 towards the target.
pub fn target_dir(input: PlayerInput) -> vec2
    ensures { result ≡ target_dir input }
{
    vec2::new(i32_to_f32(input.target_x), i32_to_f32(input.target_y)).normalize()
}

// The angle of the target, in whole 256ths.
pub fn aim(input: PlayerInput) -> Angle
    ensures { result ≡ aim input }
{
    Angle::from_net(aim_angle::net_angle(input.target_x, input.target_y))
}

pub fn jumps(input: PlayerInput) -> bool
    ensures { result ≡ jumps input }
{
    input.jump != 0
}

pub fn hooks(input: PlayerInput) -> bool
    ensures { result ≡ hooks input }
{
    input.hook != 0
}

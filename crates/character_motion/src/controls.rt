// What a character does by itself in a tick: it stands or not, jumps and walks.
ghost use Rattle.std.specs.Prelude.{◌≡◌, T};
ghost use Rattle.map_tiles.specs.Map.{is_map};
ghost use Rattle.character_motion.specs.Controls.{grounded, control_of, jump, landed, walk, clamp_speed};

use game_constants::MAX_VELOCITY;
use game_input::MoveDirection;
use game_tuning::Tuning;
use map_tiles::{Sides, check_point};
use num_convert::saturated_add;
use num_vec2::vec2;

// How a character can be steered where it is.
#[derive(Clone, Copy)]
pub struct Control {
    pub max_speed: f32,
    pub accel: f32,
    pub friction: f32,
}

// What a jump changes.
#[derive(Clone, Copy)]
pub struct JumpState {
    pub vel_y: f32,
    pub jumped_already: bool,
    pub used_airjump: bool,
}

// Whether there is a solid tile below one of the lower corners.
pub fn grounded(sides: Sides, tiles: &[u8], pos: vec2) -> bool
    requires { T (is_map sides tiles.now) }
    ensures { result ≡ grounded sides tiles.now pos }
{
    let bottom_left = pos + vec2::new(-14.0, 19.0);
    if check_point(sides, tiles, bottom_left).is_solid() {
        return true;
    }
    let bottom_right = pos + vec2::new(14.0, 19.0);
    check_point(sides, tiles, bottom_right).is_solid()
}

pub fn control_of(grounded: bool, tuning: Tuning) -> Control
    ensures { result ≡ control_of grounded tuning }
{
    if grounded {
        Control {
            max_speed: tuning.ground_control_speed,
            accel: tuning.ground_control_accel,
            friction: tuning.ground_friction,
        }
    } else {
        Control {
            max_speed: tuning.air_control_speed,
            accel: tuning.air_control_accel,
            friction: tuning.air_friction,
        }
    }
}

// A press of the button jumps once, from the ground or, once before the next landing, from the air.
pub fn jump(before: JumpState, pressed: bool, grounded: bool, tuning: Tuning) -> JumpState
    ensures { result ≡ jump before pressed grounded tuning }
{
    let mut after = before;
    if pressed {
        if !before.jumped_already {
            if grounded {
                after.vel_y = -tuning.ground_jump_impulse;
            } else if !before.used_airjump {
                after.vel_y = -tuning.air_jump_impulse;
                after.used_airjump = true;
            }
            after.jumped_already = true;
        }
    } else {
        after.jumped_already = false;
    }
    after
}

// A landing gives the air jump back.
pub fn landed(grounded: bool, used_airjump: bool) -> bool
    ensures { result ≡ landed grounded used_airjump }
{
    if grounded {
        return false;
    }
    used_airjump
}

// The velocity sideways: faster up to the limit in the direction, slower by friction in none.
pub fn walk(vel_x: f32, direction: MoveDirection, control: Control) -> f32
    ensures { result ≡ walk vel_x direction control }
{
    let max_speed = control.max_speed;
    let walked = saturated_add(
        -max_speed,
        max_speed,
        vel_x,
        direction.as_float() * control.accel,
    );
    if let MoveDirection::None = direction {
        walked * control.friction
    } else {
        walked
    }
}

// A velocity of at most MAX_VELOCITY.
pub fn clamp_speed(vel: vec2) -> vec2
    ensures { result ≡ clamp_speed vel }
{
    if vel.length() > MAX_VELOCITY {
        return vel.normalize() * MAX_VELOCITY;
    }
    vel
}

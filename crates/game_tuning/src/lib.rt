// The tunings as the physics computes with them. They are handed in as hundredths, in document 01's order, and the hook's hold in whole steps behind them.
#![tactic(auto)]

ghost use Rattle.std.specs.Prelude.{◌≡◌, ◌<◌};
ghost use Rattle.game_tuning.specs.Tuning.{tuning_count, fresh_tunings, is_hold, hold_of, may_tune, told_tuning, tuning_at, tuning_of};

use game_constants::MAX_HOOK_GRAB_TIME;

pub const TUNINGS: usize = 19;

// The index of the hook's hold.
pub const HOOK_HOLD: usize = 18;

#[derive(Clone, Copy)]
pub struct Tuning {
    pub ground_control_speed: f32,
    pub ground_control_accel: f32,
    pub ground_friction: f32,
    pub ground_jump_impulse: f32,
    pub air_jump_impulse: f32,
    pub air_control_speed: f32,
    pub air_control_accel: f32,
    pub air_friction: f32,
    pub hook_length: f32,
    pub hook_fire_speed: f32,
    pub hook_drag_accel: f32,
    pub hook_drag_speed: f32,
    pub gravity: f32,
    pub velramp_start: f32,
    pub velramp_range: f32,
    pub velramp_curvature: f32,
    pub player_collision: f32,
    pub player_hooking: f32,
    // As it was handed in: `hold_of` reads it.
    pub hook_hold: i32,
}

// The tunings of Teeworlds 0.6, in hundredths, and its hold.
pub fn fresh_tunings() -> [i32; TUNINGS]
    ensures { result ≡ fresh_tunings }
{
    [
        1000, 200, 50, 1320, 1200, 500, 150, 95, 38000, 8000, 300, 1500, 50, 55000, 200000, 140,
        100, 100, 60,
    ]
}

// Each `to_float` of the Rust, done once for all its uses.
pub fn tuning_of(hundredths: [i32; TUNINGS]) -> Tuning
    ensures { result ≡ tuning_of hundredths }
{
    Tuning {
        ground_control_speed: tuning_at(hundredths, 0),
        ground_control_accel: tuning_at(hundredths, 1),
        ground_friction: tuning_at(hundredths, 2),
        ground_jump_impulse: tuning_at(hundredths, 3),
        air_jump_impulse: tuning_at(hundredths, 4),
        air_control_speed: tuning_at(hundredths, 5),
        air_control_accel: tuning_at(hundredths, 6),
        air_friction: tuning_at(hundredths, 7),
        hook_length: tuning_at(hundredths, 8),
        hook_fire_speed: tuning_at(hundredths, 9),
        hook_drag_accel: tuning_at(hundredths, 10),
        hook_drag_speed: tuning_at(hundredths, 11),
        gravity: tuning_at(hundredths, 12),
        velramp_start: tuning_at(hundredths, 13),
        velramp_range: tuning_at(hundredths, 14),
        velramp_curvature: tuning_at(hundredths, 15),
        player_collision: tuning_at(hundredths, 16),
        player_hooking: tuning_at(hundredths, 17),
        hook_hold: hundredths[HOOK_HOLD],
    }
}

fn tuning_at(hundredths: [i32; TUNINGS], index: usize) -> f32
    requires { index < tuning_count }
    ensures { result ≡ tuning_at hundredths index }
{
    num_convert::hundredths_to_f32(hundredths[index])
}

pub fn is_hold(steps: i32) -> bool
    ensures { result ≡ is_hold steps }
{
    1 <= steps && steps as u32 <= MAX_HOOK_GRAB_TIME
}

// Whether a tuning takes a number: any of hundredths, and a hold.
pub fn may_tune(index: usize, value: i32) -> bool
    ensures { result ≡ may_tune index value }
{
    index != HOOK_HOLD || is_hold(value)
}

// The hold that a number stands for: the nearest.
pub fn hold_of(steps: i32) -> u32
    ensures { result ≡ hold_of steps }
{
    steps.clamp(1, MAX_HOOK_GRAB_TIME as i32) as u32
}

// A tuning as a reader is told it.
pub fn told_tuning(index: usize, value: i32) -> i32
    ensures { result ≡ told_tuning index value }
{
    if index == HOOK_HOLD {
        hold_of(value) as i32
    } else {
        value
    }
}

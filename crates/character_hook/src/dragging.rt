// What an attached hook does to the velocity of its character.
ghost use Rattle.std.specs.Prelude.{◌≡◌};
ghost use Rattle.character_hook.specs.Dragging.{lifted, helped, hook_vel, drag, dragged};

use crate::hook::Hook;
use game_constants::DISABLE_HOOK_DISTANCE;
use game_input::MoveDirection;
use game_tuning::Tuning;
use num_vec2::vec2;

impl Hook {
    // The velocity of a character whose hook is attached, where it is.
    pub fn dragged(self, pos: vec2, vel: vec2, direction: MoveDirection, tuning: Tuning) -> vec2
        ensures { result ≡ dragged self pos vel direction tuning }
    {
        let Hook::Attached(hook_pos) = self else {
            return vel;
        };
        drag(pos, vel, hook_pos, direction, tuning)
    }
}

// The velocity that a hook at hook_pos drags to.
fn drag(pos: vec2, vel: vec2, hook_pos: vec2, direction: MoveDirection, tuning: Tuning) -> vec2
    ensures { result ≡ drag pos vel hook_pos direction tuning }
{
    if vec2::distance(hook_pos, pos) > DISABLE_HOOK_DISTANCE {
        let new_vel = vel + hook_vel(pos, hook_pos, direction, tuning);
        let speed = new_vel.length();
        if speed < tuning.hook_drag_speed {
            return new_vel;
        }
        if speed < vel.length() {
            return new_vel;
        }
    }
    vel
}

// The pull: weaker downwards, and weaker against the direction.
fn hook_vel(pos: vec2, hook_pos: vec2, direction: MoveDirection, tuning: Tuning) -> vec2
    ensures { result ≡ hook_vel pos hook_pos direction tuning }
{
    let pull = (hook_pos - pos).normalize() * tuning.hook_drag_accel;
    helped(lifted(pull), direction)
}

fn lifted(pull: vec2) -> vec2
    ensures { result ≡ lifted pull }
{
    if pull.y > 0.0 {
        return vec2::new(pull.x, pull.y * 0.3);
    }
    pull
}

fn helped(pull: vec2, direction: MoveDirection) -> vec2
    ensures { result ≡ helped pull direction }
{
    if pull.x * direction.as_float() > 0.0 {
        return vec2::new(pull.x * 0.95, pull.y);
    }
    vec2::new(pull.x * 0.75, pull.y)
}

// What a meeting in a tick does to a character's velocity, and what its hook does to the one that it holds.
ghost use Rattle.std.specs.Prelude.{◌≡◌};
ghost use Rattle.num_vec2.specs.Vec2.{vdistance};
ghost use Rattle.character_meeting.specs.Meeting.{additional_vel, is_beyond, pushed, push, pull, drag_accel, pulled, dragged, drags, pull_on, held, meet};

use character_hook::{CharacterId, Hook};
use game_constants::CHARACTER_SIZE;
use game_tuning::Tuning;
use num_convert::saturated_add;
use num_vec2::vec2;

// Whom a hook pulls, and the velocity that it leaves them.
#[derive(Clone, Copy)]
pub struct HookPull {
    pub cid: CharacterId,
    pub vel: vec2,
}

// How much of the push is added to a velocity, by how it goes towards the other.
fn additional_vel(vel: vec2, dir_to_self: vec2) -> f32
    ensures { result ≡ additional_vel vel dir_to_self }
{
    if vel.length() > 0.0001 {
        return 1.0 - (vec2::dot(vel.normalize(), dir_to_self) + 1.0) / 2.0;
    }
    0.5
}

// The velocity of a character that collides with another.
fn pushed(pos: vec2, vel: vec2, other: vec2, distance: f32) -> vec2
    ensures { result ≡ pushed pos vel other distance }
{
    let dir_to_self = (pos - other).normalize();
    let arbitrary_factor = CHARACTER_SIZE * 1.45 - distance;
    let additional_vel = additional_vel(vel, dir_to_self);
    let push = dir_to_self * arbitrary_factor * additional_vel * 0.75;
    (vel + push) * 0.85
}

// The same, where the other is near and not in the same place.
fn push(pos: vec2, vel: vec2, other: vec2, distance: f32, player_collision: f32) -> vec2
    ensures { result ≡ push pos vel other distance player_collision }
{
    if player_collision != 0.0 {
        if distance < 35.0 {
            if distance > 0.0 {
                return pushed(pos, vel, other, distance);
            }
        }
    }
    vel
}

// Whether the other is too far for a push: most are, and a comparison of squares spares the root.
pub fn is_beyond(pos: vec2, other: vec2) -> bool
    ensures { result ≡ is_beyond pos other }
{
    let way = other - pos;
    1225.0 <= vec2::dot(way, way)
}

// The same, where the distance is still to be found.
fn collide(pos: vec2, vel: vec2, other: vec2, player_collision: f32) -> vec2
    ensures { result ≡ push pos vel other (vdistance pos other) player_collision }
{
    if is_beyond(pos, other) {
        return vel;
    }
    push(
        pos,
        vel,
        other,
        vec2::distance(pos, other),
        player_collision,
    )
}

// A velocity that a hook pulls along dir, up to the speed.
pub fn pull(vel: vec2, accel: f32, dir: vec2, factor: f32, speed: f32) -> vec2
    ensures { result ≡ pull vel accel dir factor speed }
{
    vec2::new(
        saturated_add(-speed, speed, vel.x, accel * dir.x * factor),
        saturated_add(-speed, speed, vel.y, accel * dir.y * factor),
    )
}

// How strongly a hook drags: by the distance.
fn drag_accel(distance: f32, tuning: Tuning) -> f32
    ensures { result ≡ drag_accel distance tuning }
{
    tuning.hook_drag_accel * distance / tuning.hook_length
}

// The velocity of the one that a hook holds, pulled towards the hook's character at pos.
fn pulled(pos: vec2, other_pos: vec2, other_vel: vec2, distance: f32, tuning: Tuning) -> vec2
    ensures { result ≡ pulled pos other_pos other_vel distance tuning }
{
    let dir = (pos - other_pos).normalize();
    let accel = drag_accel(distance, tuning);
    pull(other_vel, accel, dir, 1.5, tuning.hook_drag_speed)
}

// The velocity of the hook's own character, dragged towards the one that it holds.
fn dragged(pos: vec2, vel: vec2, other_pos: vec2, distance: f32, tuning: Tuning) -> vec2
    ensures { result ≡ dragged pos vel other_pos distance tuning }
{
    let dir = (pos - other_pos).normalize();
    let accel = drag_accel(distance, tuning);
    pull(vel, -accel, dir, 0.25, tuning.hook_drag_speed)
}

// Whether players can be hooked and the two are not too near.
fn drags(distance: f32, tuning: Tuning) -> bool
    ensures { result ≡ drags distance tuning }
{
    if tuning.player_hooking != 0.0 {
        return distance > 42.0;
    }
    false
}

// What a hook does to the character cid, which it holds.
pub fn pull_on(
    pos: vec2,
    cid: CharacterId,
    other_pos: vec2,
    other_vel: vec2,
    tuning: Tuning,
) -> Option<HookPull>
    ensures { result ≡ pull_on pos cid other_pos other_vel tuning }
{
    let distance = vec2::distance(pos, other_pos);
    if drags(distance, tuning) {
        let vel = pulled(pos, other_pos, other_vel, distance, tuning);
        return Some(HookPull { cid, vel });
    }
    None
}

// The own velocity of a character whose hook holds another.
fn held(pos: vec2, vel: vec2, other_pos: vec2, tuning: Tuning) -> vec2
    ensures { result ≡ held pos vel other_pos tuning }
{
    let distance = vec2::distance(pos, other_pos);
    if drags(distance, tuning) {
        return dragged(pos, vel, other_pos, distance, tuning);
    }
    vel
}

// The own velocity after a meeting with the character cid: a collision, then the drag of a hook that holds it.
pub fn meet(
    pos: vec2,
    vel: vec2,
    hook: Hook,
    other_pos: vec2,
    cid: CharacterId,
    tuning: Tuning,
) -> vec2
    ensures { result ≡ meet pos vel hook other_pos cid tuning }
{
    let pushed = collide(pos, vel, other_pos, tuning.player_collision);
    let Hook::Grabbed(hooked, _) = hook else {
        return pushed;
    };
    if hooked == cid {
        return held(pos, pushed, other_pos, tuning);
    }
    pushed
}

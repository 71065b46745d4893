// A character as words: position, velocity, the hook's case with four words, jumps, angle and direction.
ghost use Rattle.std.specs.Prelude.{◌≡◌, true};
ghost use Rattle.test_common.specs.Words.{word_at};
ghost use Rattle.test_states.specs.States.{jumps_of, direction_number, point_at, hook_in, direction_in, character_in};

use character::Character;
use character_hook::{CharacterId, Hook};
use game_input::{Angle, MoveDirection};
use num_vec2::vec2;
use test_common::{float_of, is_float, is_point, nth, point};

pub fn character_of(words: &[u8]) -> Character
    ensures { result ≡ character_in words.now }
{
    let jumps = nth(words, 9);
    Character {
        pos: point(nth(words, 0), nth(words, 1)),
        vel: point(nth(words, 2), nth(words, 3)),
        hook: hook_of(words),
        jumped_already: jumps % 2 == 1,
        used_airjump: jumps / 2 == 1,
        angle: Angle::from_radians(float_of(nth(words, 10))),
        move_direction: direction_of(nth(words, 11)),
    }
}

pub fn is_character(character: Character, words: &[u8]) -> bool
    ensures { result ≡ true → character ≡ character_in words.now }
{
    let hook = character.hook;
    let angle = character.angle;
    let direction = character.move_direction;
    if !is_point(character.pos, nth(words, 0), nth(words, 1)) {
        return false;
    }
    if !is_point(character.vel, nth(words, 2), nth(words, 3)) {
        return false;
    }
    if !is_hook(hook, words) {
        return false;
    }
    if jumps(character.jumped_already, character.used_airjump) != nth(words, 9) {
        return false;
    }
    if !is_float(angle.to_radians(), nth(words, 10)) {
        return false;
    }
    direction_number(direction) == nth(words, 11)
}

fn jumps(jumped_already: bool, used_airjump: bool) -> u32
    ensures { result ≡ jumps_of jumped_already used_airjump }
{
    if used_airjump {
        if jumped_already { 3 } else { 2 }
    } else {
        if jumped_already { 1 } else { 0 }
    }
}

fn hook_of(words: &[u8]) -> Hook
    ensures { result ≡ hook_in words.now }
{
    let pos = point(nth(words, 5), nth(words, 6));
    match nth(words, 4) {
        0 => Hook::Retracted,
        1 => Hook::Idle,
        2 => Hook::Flying(pos, point(nth(words, 7), nth(words, 8))),
        3 => Hook::Grabbed(CharacterId(nth(words, 5)), nth(words, 6)),
        4 => Hook::Attached(pos),
        5 => Hook::Retracting0(pos),
        6 => Hook::Retracting1(pos),
        _ => Hook::Retracting2(pos),
    }
}

fn is_hook(hook: Hook, words: &[u8]) -> bool
    ensures { result ≡ true → hook ≡ hook_in words.now }
{
    match hook {
        Hook::Retracted => nth(words, 4) == 0,
        Hook::Idle => nth(words, 4) == 1,
        Hook::Flying(pos, dir) => {
            is_pos_case(2, pos, words) && is_point(dir, nth(words, 7), nth(words, 8))
        }
        Hook::Grabbed(id, tick) => is_grabbed(id.0, tick, words),
        Hook::Attached(pos) => is_pos_case(4, pos, words),
        Hook::Retracting0(pos) => is_pos_case(5, pos, words),
        Hook::Retracting1(pos) => is_pos_case(6, pos, words),
        Hook::Retracting2(pos) => is_pos_case(7, pos, words),
    }
}

// A case that begins with a position.
fn is_pos_case(case: u32, pos: vec2, words: &[u8]) -> bool
    ensures { result ≡ true → (word_at words.now 4 ≡ case) × (pos ≡ point_at words.now 5) }
{
    if nth(words, 4) != case {
        return false;
    }
    is_point(pos, nth(words, 5), nth(words, 6))
}

fn is_grabbed(id: u32, tick: u32, words: &[u8]) -> bool
    ensures { result ≡ true → (word_at words.now 4 ≡ 3) × (word_at words.now 5 ≡ id) × (word_at words.now 6 ≡ tick) }
{
    if nth(words, 4) != 3 {
        return false;
    }
    if nth(words, 5) != id {
        return false;
    }
    nth(words, 6) == tick
}

fn direction_of(number: u32) -> MoveDirection
    ensures { result ≡ direction_in number }
{
    match number {
        0 => MoveDirection::Left,
        1 => MoveDirection::None,
        _ => MoveDirection::Right,
    }
}

fn direction_number(direction: MoveDirection) -> u32
    ensures { result ≡ direction_number direction }
{
    match direction {
        MoveDirection::Left => 0,
        MoveDirection::None => 1,
        MoveDirection::Right => 2,
    }
}

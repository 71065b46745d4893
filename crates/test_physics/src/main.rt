// Runs the recorded answers of the Rust for `tick` and `move_`, prints the lines that are answered otherwise, and tells how many
// agree. bench/world/record_physics prints the lines: t or m, the map's sides and 64 tiles, then the words of a scene: the id,
// the tunings, the input, the first slots with presence and a character each; then what was answered: the number, the character, the velocities in these
// slots. Beyond them nobody is: whoever has a turn there is as in a fresh world.
#![tactic(auto)]

ghost use Rattle.std.specs.Prelude.{◌<◌};
ghost use Rattle.test_physics.specs.Scene.{scene};

use character::{Character, SEATS, Slot};
use character_hook::CharacterId;
use character_meeting::HookPull;
use game_records::PlayerInput;
use game_refusals::Refusal;
use game_tuning::TUNINGS;
use map_tiles::Sides;
use num_convert::cast_signed;
use std::io;
use test_common::{
    AFTER_MAP, after, byte_at, count_lines, first, is_point, nth, point, rest, sides_of,
    tile_count, tiles_of,
};
use test_states::{character_of, is_character};

// The length of a line.
const LINE: usize = 2575;

// Where the words of a scene begin.
const ID: usize = 0;

const TUNING: usize = 1;

const INPUT: usize = TUNING + TUNINGS;

const INPUT_WORDS: usize = 5;

const SLOTS: usize = INPUT + INPUT_WORDS;

const SLOT_WORDS: usize = 13;

// How many slots a line tells.
const SCENE: usize = 16;

// Where what was answered begins.
const NUMBER: usize = SLOTS + SLOT_WORDS * SCENE;

const CHARACTER: usize = NUMBER + 1;

const VELOCITIES: usize = CHARACTER + SLOT_WORDS - 1;

// The number of an answer that is not refused.
const ACCEPTED: u32 = 0;

fn main(rt: HostRuntime) -> io::Result<()> {
    let mut output = io::writer(&rt);
    let counts = count_lines::<LINE, _, _, _>(&mut rt.reader(), &mut output, line_agrees)?;
    counts.print(&mut output)?;
    Ok(())
}

fn line_agrees(line: &[u8]) -> bool {
    let sides = sides_of(line);
    let tiles = tiles_of(line);
    let lent = first(&tiles, tile_count(line));
    let words = rest(line, AFTER_MAP);
    if byte_at(line, 0) == b't' {
        tick_agrees(sides, lent, words)
    } else {
        move_agrees(sides, lent, words)
    }
}

fn tick_agrees(sides: Sides, tiles: &[u8], words: &[u8]) -> bool {
    let id = id_of(words);
    let number = nth(words, NUMBER);
    let before = own_character(words);
    let slots = slots_of(words);
    let ticked = before.tick(
        CharacterId(id),
        slots,
        sides,
        tiles,
        input_of(words),
        tunings_of(words),
    );
    match ticked {
        Ok(after) => number == ACCEPTED && all_agree(after.me, slots, after.pull, words),
        Err(refusal) => refusal == Refusal::TooFar
            && number == refusal.into()
            && all_agree(before, slots, None, words),
    }
}

fn all_agree(me: Character, slots: [Slot; SEATS], pull: Option<HookPull>, words: &[u8]) -> bool {
    is_character(me, after(words, CHARACTER)) && slots_agree(slots, pull, words)
}

fn move_agrees(sides: Sides, tiles: &[u8], words: &[u8]) -> bool {
    let id = id_of(words);
    let number = nth(words, NUMBER);
    let moved = own_character(words).move_(
        CharacterId(id),
        slots_of(words),
        sides,
        tiles,
        tunings_of(words),
    );
    match moved {
        Ok(me) => number == ACCEPTED && is_character(me, after(words, CHARACTER)),
        Err(refusal) => refusal == Refusal::TooFar && number == refusal.into(),
    }
}

// The character whose turn it is.
fn own_character(words: &[u8]) -> Character {
    let id = id_of(words) as usize;
    if id < SCENE {
        let slot = slot_of(words, id);
        return slot.character;
    }
    Character::spawn(point(0, 0))
}

fn slots_agree(slots: [Slot; SEATS], pull: Option<HookPull>, words: &[u8]) -> bool {
    let mut agree = true;
    for j in 0..SCENE {
        if !slot_agrees(slots[j], pull, words, j) {
            agree = false;
        }
    }
    agree
}

// Nothing of a slot changes but the velocity.
fn slot_agrees(from: Slot, pull: Option<HookPull>, words: &[u8], j: usize) -> bool
    requires { j < scene }
{
    let slot = from.pulled(pull, j);
    let before = slot_of(words, j);
    let old = before.character;
    let old_vel = old.vel;
    let mut rest = slot.character;
    let vel = rest.vel;
    rest.vel = old_vel;
    slot.present == before.present
        && slot.input == before.input
        && is_character(rest, character_words(words, j))
        && is_point(
            vel,
            nth(words, VELOCITIES + 2 * j),
            nth(words, VELOCITIES + 2 * j + 1),
        )
}

fn id_of(words: &[u8]) -> u32 {
    nth(words, ID)
}

fn tunings_of(words: &[u8]) -> [i32; TUNINGS] {
    let mut tunings = [0i32; TUNINGS];
    for i in 0..TUNINGS {
        tunings[i] = cast_signed(nth(words, TUNING + i));
    }
    tunings
}

fn input_of(words: &[u8]) -> PlayerInput {
    PlayerInput {
        direction: cast_signed(nth(words, INPUT)),
        target_x: cast_signed(nth(words, INPUT + 1)),
        target_y: cast_signed(nth(words, INPUT + 2)),
        jump: cast_signed(nth(words, INPUT + 3)),
        hook: cast_signed(nth(words, INPUT + 4)),
    }
}

fn slots_of(words: &[u8]) -> [Slot; SEATS] {
    let mut slots = [Slot::empty(); SEATS];
    for j in 0..SCENE {
        slots[j] = slot_of(words, j);
    }
    slots
}

// Every slot has the same input.
fn slot_of(words: &[u8], j: usize) -> Slot
    requires { j < scene }
{
    let character = character_of(character_words(words, j));
    let slot = if is_present(words, j) {
        Slot::joined(character.pos)
    } else {
        Slot::empty()
    };
    slot.with_character(character).with_input(input_of(words))
}

fn is_present(words: &[u8], j: usize) -> bool
    requires { j < scene }
{
    nth(words, SLOTS + j * SLOT_WORDS) == 1
}

fn character_words(words: &[u8], j: usize) -> &[u8]
    requires { j < scene }
{
    after(words, SLOTS + j * SLOT_WORDS + 1)
}

// Runs the recorded answers of the Rust for `to_net`, `from_net` and `quantize`, prints the lines that are answered otherwise, and
// tells how many agree. bench/world/record_records prints the lines: s or r, a state, the number, a record, the state of the record.
#![tactic(auto)]

use character::Character;
use game_records::{CORE, core_numbers, core_of};
use game_refusals::Refusal;
use std::io;
use test_common::{are_numbers, byte_at, count_lines, read_numbers, rest, word};
use test_states::{character_of, is_character};

// The length of a line; where the states, the number and the record begin in it.
const LINE: usize = 362;

const BEFORE: usize = 2;

const NUMBER: usize = 110;

const RECORD: usize = 119;

const AFTER: usize = 254;

const ACCEPTED: u32 = 0;

fn main(rt: HostRuntime) -> io::Result<()> {
    let mut output = io::writer(&rt);
    let counts = count_lines::<LINE, _, _, _>(&mut rt.reader(), &mut output, line_agrees)?;
    counts.print(&mut output)?;
    Ok(())
}

fn line_agrees(line: &[u8]) -> bool {
    let number = word(rest(line, NUMBER));
    let record = rest(line, RECORD);
    let after = rest(line, AFTER);
    if byte_at(line, 0) == b's' {
        state_case(rest(line, BEFORE), number, record, after)
    } else {
        record_case(number, record, after)
    }
}

fn state_case(before: &[u8], number: u32, record: &[u8], after: &[u8]) -> bool {
    let character = character_of(before);
    net_agrees(character, number, record)
        && quantize_agrees(character, number, after)
        && (number == u32::from(Refusal::TickTooLarge) || record_case(number, record, after))
}

fn record_case(number: u32, record: &[u8], after: &[u8]) -> bool {
    let mut numbers = [0i32; CORE];
    read_numbers(record, &mut numbers);
    let character = Character::from_net(core_of(&numbers));
    is_character(character, after) && number_agrees(character, number)
}

fn net_agrees(character: Character, number: u32, record: &[u8]) -> bool {
    match character.to_net() {
        Ok(core) => number == ACCEPTED && are_numbers(&core_numbers(core), record),
        Err(refusal) => number == refusal.into(),
    }
}

fn number_agrees(character: Character, number: u32) -> bool {
    match character.to_net() {
        Ok(_) => number == ACCEPTED,
        Err(refusal) => number == refusal.into(),
    }
}

fn quantize_agrees(character: Character, number: u32, after: &[u8]) -> bool {
    match character.quantize() {
        Ok(character) => number == ACCEPTED && is_character(character, after),
        Err(refusal) => number == refusal.into(),
    }
}

// Runs the recorded answers of plain Rust for packed records, prints the lines that are answered otherwise, and tells how many agree.
// bench/record prints the lines (record_packed): how many bytes, 80 bytes, then the number, how many bytes were used, and the record.
#![tactic(auto)]

use game_packed::{MOST_PACKED, Packed, pack, unpack};
use game_records::{CharacterCore, core_numbers};
use std::io;
use test_common::{after, are_numbers, byte_at, count_lines, first, hex, nth, rest};

// The length of a line; where its bytes and its words begin.
const LINE: usize = 317;

const BYTES: usize = 3;

const WORDS: usize = 164;

// Where the number, the count and the record stand among the words.
const NUMBER: usize = 0;

const USED: usize = 1;

const RECORD: usize = 2;

const ACCEPTED: u32 = 0;

fn main(rt: HostRuntime) -> io::Result<()> {
    let mut output = io::writer(&rt);
    let counts = count_lines::<LINE, _, _, _>(&mut rt.reader(), &mut output, line_agrees)?;
    counts.print(&mut output)?;
    Ok(())
}

fn line_agrees(line: &[u8]) -> bool {
    let mut bytes = [0u8; 80];
    read_bytes(rest(line, BYTES), &mut bytes);
    let count = digits_byte(line, 0) as usize;
    read_agrees(first(&bytes, count), rest(line, WORDS))
}

// Two digits for each byte.
fn read_bytes(digits: &[u8], bytes: &mut [u8]) {
    for (i, byte) in bytes.iter_mut().enumerate() {
        *byte = digits_byte(digits, i);
    }
}

// The byte that two digits say.
fn digits_byte(digits: &[u8], i: usize) -> u8 {
    if i < 1000 {
        let high = hex(byte_at(digits, 2 * i));
        let low = hex(byte_at(digits, 2 * i + 1));
        (high * 16 + low) as u8
    } else {
        0
    }
}

fn read_agrees(bytes: &[u8], words: &[u8]) -> bool {
    let number = nth(words, NUMBER);
    match unpack(bytes) {
        Err(refusal) => number == refusal.into(),
        Ok((core, used)) => {
            number == ACCEPTED
                && nth(words, USED) as usize == used
                && are_numbers(&core_numbers(core), after(words, RECORD))
                && write_agrees(core, first(bytes, used))
        }
    }
}

// The writer makes the bytes that were used, and zeros after them.
fn write_agrees(core: CharacterCore, bytes: &[u8]) -> bool {
    let Packed { bytes: made, count } = pack(core);
    let zeros = [0u8; MOST_PACKED];
    first(&made, count) == bytes && rest(&made, count) == rest(&zeros, count)
}

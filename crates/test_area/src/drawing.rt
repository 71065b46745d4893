// Bytes and totals that a seed says, and their digests.
use num_convert::cast_signed;
use test_common::mix;

// The most tiles of a map, and a few more.
pub const MOST: usize = 1032;

// A seed below 256 says a map of that byte alone.
const ALONE: u32 = 256;

// From here on a seed says totals just below 2^32.
const HIGH: u32 = 0x8000_0000;

pub fn draw_tiles(tiles: &mut [u8], seed: u32) {
    let mut drawn = seed;
    for tile in tiles {
        drawn = mix(drawn, 1);
        *tile = drawn_byte(seed, drawn);
    }
}

// One in ten is 255, the others are 0 to 3.
fn drawn_byte(seed: u32, drawn: u32) -> u8 {
    if seed < ALONE {
        return seed as u8;
    }
    match drawn / 65536 % 10 {
        4 => 255,
        n => (n % 4) as u8,
    }
}

pub fn draw_totals(totals: &mut [u32], seed: u32) {
    let mut drawn = seed;
    for total in totals {
        drawn = mix(drawn, 1);
        *total = drawn_total(seed, drawn);
    }
}

fn drawn_total(seed: u32, drawn: u32) -> u32 {
    if seed < HIGH {
        return drawn;
    }
    0xffff_ffff - drawn / 65536 % 4
}

pub fn digest_tiles(tiles: &[u8]) -> u32 {
    let mut sum = 0;
    for &tile in tiles {
        sum = mix(sum, cast_signed(tile as u32));
    }
    sum
}

pub fn digest_totals(totals: &[u32]) -> u32 {
    let mut sum = 0;
    for &total in totals {
        sum = mix(sum, cast_signed(total));
    }
    sum
}

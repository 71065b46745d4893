// A map in a line of vectors, after the line's mark: two digits for each side, and one for each of 64 tiles.
ghost use Rattle.std.specs.Prelude.{◌≡◌, ◌*◌, ◌<◌};
ghost use Rattle.test_common.specs.Words.{two_digits, width_in, height_in, sides_in, tiles_of, tiles_in};

use crate::lines::{byte_at, first, rest};
use crate::vectors::hex;
use map_tiles::Sides;

// Where the sides and the tiles begin, and what comes after the map.
const WIDTH: usize = 2;

const HEIGHT: usize = 5;

const TILES: usize = 8;

pub const AFTER_MAP: usize = 73;

// The number of two digits.
fn two_digits(high: u8, low: u8) -> u32
    ensures { (result ≡ two_digits high low) × (result < 256) }
{
    hex(high) * 16 + hex(low)
}

fn width(line: &[u8]) -> u32
    ensures { (result ≡ width_in line.now) × (result < 256) }
{
    two_digits(byte_at(line, WIDTH), byte_at(line, WIDTH + 1))
}

fn height(line: &[u8]) -> u32
    ensures { (result ≡ height_in line.now) × (result < 256) }
{
    two_digits(byte_at(line, HEIGHT), byte_at(line, HEIGHT + 1))
}

pub fn sides_of(line: &[u8]) -> Sides
    ensures { result ≡ sides_in line.now }
{
    Sides {
        width: width(line),
        height: height(line),
    }
}

// How many tiles the map has: the first of those that are in the line.
pub fn tile_count(line: &[u8]) -> usize
    ensures { result ≡ width_in line.now * height_in line.now }
{
    (width(line) * height(line)) as usize
}

pub fn tiles_of(line: &[u8]) -> [u8; 64]
    ensures { result ≡ tiles_in line.now }
{
    tiles_from(rest(line, TILES))
}

fn tiles_from(digits: &[u8]) -> [u8; 64]
    ensures { result ≡ tiles_of digits.now }
{
    let mut tiles = [0u8; 64];
    for (i, &digit) in first(digits, 64).iter().enumerate() {
        tiles[i] = hex(digit) as u8;
    }
    tiles
}

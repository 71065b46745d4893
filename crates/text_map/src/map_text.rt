// The map part of a session's text: its sides and its tiles.
ghost use Rattle.std.specs.Prelude.{◌≤◌, length};
ghost use Rattle.text_map.specs.Map.{most_tiles};
ghost use Rattle.text_map.specs.Reading.{MapAt};

use crate::head::read_head;
use crate::name::read_name;
use crate::tiles::read_tiles;

// A longer text is at fault.
pub const MOST_BYTES: usize = 65536;

// No such text holds more tiles: each takes two bytes.
pub const MOST_TILES: usize = 32768;

// The sides of a map, with the place past its part of the text.
#[derive(Clone, Copy)]
pub struct MapPart {
    pub width: usize,
    pub height: usize,
    pub next: usize,
}

// Reads the map part, with its tiles to the start of `tiles`. What a fault leaves there, and what stands past the tiles, is not said.
pub fn read_map(text: &[u8], tiles: &mut [u8]) -> Option<MapPart>
    requires { most_tiles ≤ length tiles.old }
    ensures { MapAt text.now tiles.new result }
{
    if MOST_BYTES < text.len() {
        return None;
    }
    let (width, height, at) = read_head(text)?;
    if MOST_TILES < width * height {
        return None;
    }
    let past = read_tiles(text, at, width, height, tiles)?;
    let next = read_name(text, past, b"call a b c d e f\n")?;
    Some(MapPart {
        width,
        height,
        next,
    })
}

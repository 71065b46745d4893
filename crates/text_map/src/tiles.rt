// The tiles, row by row.
ghost use Rattle.std.specs.Prelude.{◌*◌, ◌<◌, ◌≤◌, length};
ghost use Rattle.text_map.specs.Reading.{TilesAt};

use text_decimal::{end_byte, read_number};

// Reads the tiles of a map to the start of `tiles`, and returns the place past them.
pub fn read_tiles(
    text: &[u8],
    at: usize,
    width: usize,
    height: usize,
    tiles: &mut [u8],
) -> Option<usize>
    requires { (0 < width) × (width * height ≤ length tiles.old) }
    ensures { TilesAt width height text.now at tiles.new result }
{
    let count = width * height;
    let mut place = at;
    // By index: a tile beside the place of its number, and the last of a row ends with another byte.
    for i in 0..count {
        let (n, next) = read_number(text, place, end_byte((count - 1 - i) % width))?;
        if 255 < n {
            return None;
        }
        tiles[i] = n as u8;
        place = next;
    }
    Some(place)
}

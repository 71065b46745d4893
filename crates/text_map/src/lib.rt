// What a session's text has first: its map.
#![tactic(auto)]

mod head;
mod map_text;
mod name;
mod tiles;

pub use map_text::{MOST_BYTES, MOST_TILES, MapPart, read_map};

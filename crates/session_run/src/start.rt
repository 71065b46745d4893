// How a session starts: the heading, and the map.
ghost use Rattle.std.specs.Prelude.{◌*◌, ◌≤◌, length};
ghost use Rattle.character.specs.Tick.{seats};
ghost use Rattle.text_map.specs.Map.{most_tiles};
ghost use Rattle.text_writing.specs.Output.{most_line};
ghost use Rattle.session_run.specs.Start.{Began};

use crate::session_lines::{Session, Turned};
use game_refusals::Refusal;
use map_tiles::Sides;
use text_map::{MOST_BYTES, read_map};
use text_writing::{put_answer, put_heading};
use world_joins::fresh;

// A longer text is at fault, so one byte more tells.
pub const MOST_READ: usize = MOST_BYTES + 1;

// The map's sides, how many tiles it has, and the session before its first call.
#[derive(Clone, Copy)]
pub struct Begun {
    pub sides: Sides,
    pub count: usize,
    pub first: Turned,
}

// Puts the heading into buf, and the map's tiles to the start of `tiles`. A map at fault ends the session.
pub fn begin(text: &[u8], tiles: &mut [u8], buf: &mut [u8]) -> Begun
    requires { (most_tiles ≤ length tiles.old) × (2 * most_line ≤ length buf.old) }
    ensures { Began seats text.now tiles.new buf.old result buf.new }
{
    let end = put_heading(buf, 0);
    match read_map(text, tiles) {
        None => Begun {
            sides: Sides {
                width: 0,
                height: 0,
            },
            count: 0,
            first: Turned {
                session: Session {
                    done: true,
                    call: 1,
                    place: 0,
                    world: fresh(),
                },
                next: put_answer(buf, end, 1, u32::from(Refusal::BadText) as i32),
            },
        },
        Some(map) => Begun {
            sides: Sides {
                width: map.width as u32,
                height: map.height as u32,
            },
            count: map.width * map.height,
            first: Turned {
                session: Session {
                    done: false,
                    call: 1,
                    place: map.next,
                    world: fresh(),
                },
                next: end,
            },
        },
    }
}

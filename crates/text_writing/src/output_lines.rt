// The lines that the session program writes, put into a buffer.
ghost use Rattle.std.specs.Prelude.{◌+◌, ◌≤◌, length};
ghost use Rattle.text_writing.specs.Output.{heading, most_line, line_bytes, record_bytes, answer_bytes};
ghost use Rattle.text_writing.specs.Put.{Put};

use crate::line::{put_bytes, put_line};
use game_records::{CORE, CharacterCore, core_numbers};

// How many values a line has: which call, its answer, whose record, and the numbers of that.
const VALUES: usize = 3 + CORE;

// A value has at most eleven bytes, and one after it.
pub const MOST_LINE: usize = 12 * VALUES;

// Puts the line of names into buf from `at` on, and answers the place past it.
pub fn put_heading(buf: &mut [u8], at: usize) -> usize
    requires { at + most_line ≤ length buf.old }
    ensures { Put buf.old at heading buf.new result }
{
    put_bytes(
        buf,
        at,
        b"call answer id tick x y vel_x vel_y angle direction jumped hooked_player hook_state hook_tick hook_x hook_y hook_dx hook_dy\n",
    )
}

// Puts the line of a record into buf from `at` on, and answers the place past it.
pub fn put_record(
    buf: &mut [u8],
    at: usize,
    call: i32,
    answer: i32,
    id: i32,
    core: CharacterCore,
) -> usize
    requires { at + most_line ≤ length buf.old }
    ensures { Put buf.old at (record_bytes call answer id core) buf.new result }
{
    let numbers = core_numbers(core);
    put_values(buf, at, call, answer, id, numbers)
}

// Puts the line of an answer without a record into buf from `at` on, and answers the place past it.
pub fn put_answer(buf: &mut [u8], at: usize, call: i32, answer: i32) -> usize
    requires { at + most_line ≤ length buf.old }
    ensures { Put buf.old at (answer_bytes call answer) buf.new result }
{
    put_values(buf, at, call, answer, -1, [0i32; CORE])
}

fn put_values(
    buf: &mut [u8],
    at: usize,
    call: i32,
    answer: i32,
    id: i32,
    numbers: [i32; CORE],
) -> usize
    requires { at + most_line ≤ length buf.old }
    ensures { Put buf.old at (line_bytes call answer id numbers) buf.new result }
{
    let mut row = [0i32; VALUES];
    row[..3].copy_from_slice(&[call, answer, id]);
    row[3..].copy_from_slice(&numbers);
    put_line(buf, at, &row)
}

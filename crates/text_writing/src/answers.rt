// The lines of a call's answer, put into a buffer.
ghost use Rattle.std.specs.Prelude.{◌+◌, ◌*◌, ◌≤◌, length};
ghost use Rattle.character.specs.Tick.{seats};
ghost use Rattle.text_writing.specs.Put.{Put};
ghost use Rattle.text_writing.specs.Output.{most_line};
ghost use Rattle.world.specs.Run.{told_by};
ghost use Rattle.world.specs.Step.{stepped_in};
ghost use Rattle.world.specs.declared.World.{World};
ghost use Rattle.text_writing.specs.Answers.{record_lines, told_bytes};

use crate::output_lines::{put_answer, put_record};
use character::SEATS;
use game_refusals::Refusal;
use world::{Published, Records};

// Puts the lines of a call's answer into buf from `at` on, and answers the place past them.
pub fn put_told(buf: &mut [u8], at: usize, call: i32, answer: Result<Records, Refusal>) -> usize
    requires { at + most_line * seats ≤ length buf.old }
    ensures { (w : World) → Put buf.old at (told_bytes seats call (told_by (stepped_in seats w answer))) buf.new result }
{
    match answer {
        Ok(told) => {
            let end = put_records(buf, at, call, told.records);
            if end == at {
                return put_answer(buf, at, call, 0);
            }
            end
        }
        Err(refusal) => put_answer(buf, at, call, u32::from(refusal) as i32),
    }
}

// A line for each record, by rising id.
fn put_records(buf: &mut [u8], at: usize, call: i32, records: [Published; SEATS]) -> usize
    requires { at + most_line * seats ≤ length buf.old }
    ensures { Put buf.old at (record_lines seats call records) buf.new result }
{
    let mut next = at;
    for (id, published) in records.iter().enumerate() {
        if published.present {
            next = put_record(buf, next, call, 0, id as i32, published.core);
        }
    }
    next
}

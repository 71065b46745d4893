// Runs the recorded vectors of its input, prints those that the functions answer otherwise, and tells how many agree. A line is
// a function's number, an argument's pattern and the answer's, in 8 hexadecimal digits each; bench/record prints them.
#![tactic(auto)]

use num_convert::cast_signed;
use std::io;
use test_common::{byte_at, count_lines, float_of, hex, is_float, is_int, rest, word};

// The length of a line, and where the argument and the answer begin in it.
const LINE: usize = 20;

const ARGUMENT: usize = 2;

const ANSWER: usize = 11;

fn main(rt: HostRuntime) -> io::Result<()> {
    let mut output = io::writer(&rt);
    let counts = count_lines::<LINE, _, _, _>(&mut rt.reader(), &mut output, line_agrees)?;
    counts.print(&mut output)?;
    Ok(())
}

fn line_agrees(line: &[u8]) -> bool {
    agrees(
        hex(byte_at(line, 0)),
        word(rest(line, ARGUMENT)),
        word(rest(line, ANSWER)),
    )
}

fn agrees(which: u32, argument: u32, answer: u32) -> bool {
    match which {
        0 => is_float(num_root::root(float_of(argument)), answer),
        1 => is_int(num_convert::round_to_i32(float_of(argument)), answer),
        2 => is_int(num_convert::trunc_to_i32(float_of(argument)), answer),
        3 => is_float(num_convert::i32_to_f32(cast_signed(argument)), answer),
        4 => is_float(
            num_convert::hundredths_to_f32(cast_signed(argument)),
            answer,
        ),
        5 => is_float(num_convert::quantize(float_of(argument)), answer),
        6 => is_int(num_convert::to_256ths(float_of(argument)), answer),
        7 => is_float(num_convert::from_256ths(cast_signed(argument)), answer),
        _ => is_float(num_convert::quantize_256ths(float_of(argument)), answer),
    }
}

// Compares the tables of the angle rule with entries from another source, and runs recorded answers of the angle, the power and the
// ramp. It prints the lines that are answered otherwise, and tells how many agree. A line is 0 for an entry, 1 for an angle, 2 for a
// power or 3 for a ramp, and 5 patterns; tools/angle_entries prints those of entries, bench/record the others.
#![tactic(auto)]

use num_convert::{cast_signed, hundredths_to_f32};
use std::io;
use test_common::{byte_at, count_lines, float_of, is_float, is_int, nth, rest};

// The length of a line, and where the patterns begin in it.
const LINE: usize = 47;

const PATTERNS: usize = 2;

fn main(rt: HostRuntime) -> io::Result<()> {
    let mut output = io::writer(&rt);
    let counts = count_lines::<LINE, _, _, _>(&mut rt.reader(), &mut output, line_agrees)?;
    counts.print(&mut output)?;
    Ok(())
}

fn line_agrees(line: &[u8]) -> bool {
    let patterns = rest(line, PATTERNS);
    match byte_at(line, 0) {
        b'0' => entry_agrees(nth(patterns, 0), nth(patterns, 1), nth(patterns, 2)),
        b'1' => {
            angle_agrees(
                nth(patterns, 0),
                nth(patterns, 1),
                nth(patterns, 2),
                nth(patterns, 3),
            )
        }
        b'2' => power_agrees(nth(patterns, 0), nth(patterns, 1), nth(patterns, 2)),
        _ => ramp_agrees(patterns),
    }
}

fn entry_agrees(n: u32, cosine: u32, sine: u32) -> bool {
    if 804 < n {
        return false;
    }
    let i = n as usize;
    let cosines = aim_tables::cosines();
    let sines = aim_tables::sines();
    is_int(cosines[i], cosine) && is_int(sines[i], sine)
}

// By itself and by a scan, which also tells how many entries it read.
fn angle_agrees(x: u32, y: u32, answer: u32, read: u32) -> bool {
    let scan = aim_scan::scan_angle(cast_signed(x), cast_signed(y));
    is_int(aim_angle::net_angle(cast_signed(x), cast_signed(y)), answer)
        && is_int(scan.angle, answer)
        && scan.read == read
}

fn power_agrees(c: u32, e: u32, answer: u32) -> bool {
    is_float(num_ramp::powf(float_of(c), float_of(e)), answer)
}

fn ramp_agrees(patterns: &[u8]) -> bool {
    let value = float_of(nth(patterns, 0));
    let start = hundredths_to_f32(cast_signed(nth(patterns, 1)));
    let range = hundredths_to_f32(cast_signed(nth(patterns, 2)));
    let curvature = hundredths_to_f32(cast_signed(nth(patterns, 3)));
    is_float(
        num_ramp::velocity_ramp(value, start, range, curvature),
        nth(patterns, 4),
    )
}

// An f32 to a whole number: `round_to_i32` and `trunc_to_i32`. Each has a value for every argument, and equals its definition in `specs/`.
ghost use Rattle.std.specs.Prelude.{◌≡◌, ℕ, ◌^◌, ◌<◌, false, from_bits};
ghost use Rattle.std.specs.Float.{binary32};
ghost use Rattle.std.specs.Float.Ieee.Exact.{HasValue};
ghost use Rattle.num_convert.specs.Whole.{cut, whole_of, round_to_i32, trunc_to_i32};

// The nearest i32, halves away from zero; 0 for a not-a-number.
pub fn round_to_i32(x: f32) -> i32
    ensures { result ≡ round_to_i32 x }
{
    whole(x, 1)
}

// The i32 towards zero; 0 for a not-a-number.
pub fn trunc_to_i32(x: f32) -> i32
    ensures { result ≡ trunc_to_i32 x }
{
    whole(x, 0)
}

// x cut to a whole number after `up` halves are added to its size, or the nearest i32 beyond the range.
// By the bits of the pattern, not by `f32::round` and `as`: it is faster.
fn whole(x: f32, up: u64) -> i32
    requires { up < 2 }
    ensures { result ≡ whole_of 31 up x }
{
    if x != x {
        return 0;
    }
    let b = f32::to_bits(x);
    let p = b % 0x8000_0000;
    if p < 0x4f00_0000 {
        let w = magnitude(p, up) as i32;
        if b < 0x8000_0000 { w } else { 0 - w }
    } else if b < 0x8000_0000 {
        2147483647
    } else {
        -2147483648
    }
}

// The value of the pattern p, which is below 2^31, cut to a whole number after `up` halves are added.
fn magnitude(p: u32, up: u64) -> u64
    requires { (p < 1325400064) × (up < 2) }
    ensures { (result < 2 ^ 31) × ((n : ℕ) → HasValue (from_bits binary32 p) false n (2 ^ 149) → result ≡ cut up n (2 ^ 149)) }
{
    let e = p / 0x80_0000;
    let m = (p % 0x80_0000 + 0x80_0000) as u64;
    if e < 126 {
        0
    } else if e <= 150 {
        (((m * 2) >> (150 - e)) + up) / 2
    } else {
        m << (e - 150)
    }
}

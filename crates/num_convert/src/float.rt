// Whole numbers, hundredths and 256ths as f32, and quantizing. Each function has a value for every argument, and equals its definition
// in `specs/`.
ghost use Rattle.std.specs.Prelude.{◌≡◌};
ghost use Rattle.num_convert.specs.Convert.{i32_to_f32, hundredths_to_f32, quantize, to256ths, from256ths, quantize256ths};

use crate::whole::round_to_i32;

// n as f32: nearest, ties to even.
pub fn i32_to_f32(n: i32) -> f32
    ensures { result ≡ i32_to_f32 n }
{
    // The machine's own cast, where it loses nothing.
    if -16777216 <= n && n <= 16777216 {
        return n as f32;
    }
    std::num::nearest_i32_to_f32(n)
}

// A tuning, which is in hundredths, as f32.
pub fn hundredths_to_f32(n: i32) -> f32
    ensures { result ≡ hundredths_to_f32 n }
{
    i32_to_f32(n) / 100.0
}

// A coordinate to the nearest whole number and back.
pub fn quantize(x: f32) -> f32
    ensures { result ≡ quantize x }
{
    i32_to_f32(round_to_i32(x))
}

// A velocity to the nearest 256th, as a count of them.
pub fn to_256ths(v: f32) -> i32
    ensures { result ≡ to256ths v }
{
    round_to_i32(v * 256.0)
}

// A count of 256ths as f32.
pub fn from_256ths(n: i32) -> f32
    ensures { result ≡ from256ths n }
{
    i32_to_f32(n) / 256.0
}

// A velocity to the nearest 256th and back.
pub fn quantize_256ths(v: f32) -> f32
    ensures { result ≡ quantize256ths v }
{
    from_256ths(to_256ths(v))
}

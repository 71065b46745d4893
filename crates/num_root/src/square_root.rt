// The correctly rounded root, over whole numbers: a guess, of which nothing is said, is made exact.
ghost use Rattle.std.specs.Prelude.{◌≡◌, false, ◌+◌, ◌*◌, ◌≤◌, ◌<◌, ◌^◌, T, Float};
ghost use Rattle.std.specs.Float.{binary32};
ghost use Rattle.std.specs.Float.Ieee.{fits, of_bits};
ghost use Rattle.std.specs.Float.Ieee.Exact.{HasValue};
ghost use Rattle.num_root.specs.Root.{root};

use crate::segments::row;

// The square root, rounded to the nearest f32.
pub fn root(x: f32) -> f32
    ensures { result ≡ root binary32 x }
{
    if x > 0.0 {
        let b = f32::to_bits(x);
        if b < 0x7f80_0000 {
            f32::from_bits(root_bits(b))
        } else {
            x
        }
    } else if x == 0.0 {
        x
    } else {
        0.0 / 0.0
    }
}

// The pattern of the root of the positive value with the pattern b.
fn root_bits(b: u32) -> u32
    requires { (0 < b) × (b < 2139095040) }
    ensures { (result < 2139095040) × (of_bits binary32 result ≡ root binary32 (of_bits binary32 b)) }
{
    let e = b / 0x80_0000;
    let f = b % 0x80_0000;
    let (w, t) = if e == 0 {
        let z = f.leading_zeros() - 8;
        (f << z, 149 - z)
    } else {
        (f + 0x80_0000, e + 148)
    };
    root_parts(w, t)
}

// The pattern of the root of w * 2^(t - 298), for a w of 24 digits. Shifted to 49 or 50, so that an even power is left, it has a root of 25.
fn root_parts(w: u32, t: u32) -> u32
    requires { (2 ^ 23 ≤ w) × (w < 2 ^ 24) × (126 ≤ t) × (t < 403) }
    ensures { (result < 2139095040) × ((x : Float) → T (fits binary32 x) → HasValue x false (w * 2 ^ t) (2 ^ 298) → of_bits binary32 result ≡ root binary32 x) }
{
    let p = (t + 1) % 2;
    let n = (w as u64) << (25 + p);
    let s = isqrt(n, guess(w % 0x80_0000 + t % 2 * 0x80_0000));
    let j = (t - 25 - p) / 2;
    (j + 1) * 0x80_0000 + ((s + 1) / 2) as u32
}

// The largest s with s * s <= n, from any guess at it.
fn isqrt(n: u64, guess: u64) -> u64
    requires { (n < 2 ^ 50) × (guess < 2 ^ 25) }
    ensures { (result * result ≤ n) × (n < (result + 1) * (result + 1)) }
{
    let q = guess * guess;
    if q <= n && n - q <= 2 * guess {
        return guess;
    }
    raised(n, lowered(n, guess))
}

// The largest number up to s whose square is at most n.
// A `while`: it ends at a number from which no range could be told before.
fn lowered(n: u64, s: u64) -> u64
    requires { s < 2 ^ 25 }
    ensures { result * result ≤ n }
{
    let mut r = s;
    while n < r * r {
        r -= 1;
    }
    r
}

// The largest number whose square is at most n, at least s.
// A `while`, as `lowered`.
fn raised(n: u64, s: u64) -> u64
    requires { (n < 2 ^ 50) × (s * s ≤ n) }
    ensures { (result * result ≤ n) × (n < (result + 1) * (result + 1)) }
{
    let mut r = s;
    while (r + 1) * (r + 1) <= n {
        r += 1;
    }
    r
}

// A guess at the root of w * 2^(25 + p), for a w of 24 digits, by the digits below the first and 1 - p above them.
fn guess(v: u32) -> u64
    ensures { result < 2 ^ 25 }
{
    let [c0, c1, c2, c3] = row((v / 0x8_0000 % 32) as usize);
    let d = (v % 0x8_0000) as u64;
    let bend = c2 - scaled(c3, d);
    (c0 + scaled(c1, d) - scaled(bend, scaled(d, d))) / 128 % 0x200_0000
}

// a times b / 2^19, cut.
fn scaled(a: u64, b: u64) -> u64
    requires { (a < 2 ^ 32) × (b < 2 ^ 19) }
    ensures { result ≤ a }
{
    a * b / 0x8_0000
}

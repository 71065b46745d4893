// Reading recorded vectors: a pattern is 8 hexadecimal digits, and any not-a-number counts as any other.
ghost use Rattle.std.specs.Prelude.{◌≡◌, ◌<◌, true, from_bits};
ghost use Rattle.std.specs.Float.{binary32};
ghost use Rattle.num_convert.specs.Casts.{cast_signed};
ghost use Rattle.num_vec2.specs.Vec2.{vnew};
ghost use Rattle.test_common.specs.Words.{hex_of, word_of, words_from, word_at};

use crate::lines::first;
use num_convert::cast_signed;
use num_vec2::vec2;

// The first 8 digits as a number.
pub fn word(text: &[u8]) -> u32
    ensures { result ≡ word_of text.now }
{
    let mut value: u32 = 0;
    for &digit in first(text, 8) {
        value = value % 0x1000_0000 * 16 + hex(digit);
    }
    value
}

pub fn hex(byte: u8) -> u32
    ensures { (result ≡ hex_of byte) × (result < 16) }
{
    match byte {
        b'0'..=b'9' => (byte - b'0') as u32,
        b'a'..=b'f' => (byte - b'a') as u32 + 10,
        _ => 0,
    }
}

// The word with the number k; each ends with a byte of its own.
pub fn nth(words: &[u8], k: usize) -> u32
    ensures { result ≡ word_at words.now k }
{
    word(after(words, k))
}

// The words from the number k on.
pub fn after(words: &[u8], k: usize) -> &[u8]
    ensures { result.now ≡ words_from words.now k }
{
    if k < words.len() / 9 {
        let start = k * 9;
        return &words[start..];
    }
    &words[0..0]
}

// Any not-a-number counts as any other, so its pattern is not kept.
pub fn float_of(pattern: u32) -> f32
    ensures { result ≡ from_bits binary32 pattern }
{
    if pattern % 0x8000_0000 <= 0x7f80_0000 {
        f32::from_bits(pattern)
    } else {
        0.0 / 0.0
    }
}

pub fn is_float(x: f32, pattern: u32) -> bool
    ensures { result ≡ true → x ≡ from_bits binary32 pattern }
{
    if x != x {
        0x7f80_0000 < pattern % 0x8000_0000
    } else {
        f32::to_bits(x) == pattern
    }
}

pub fn is_int(n: i32, pattern: u32) -> bool
    ensures { result ≡ true → n ≡ cast_signed pattern }
{
    n == cast_signed(pattern)
}

pub fn point(x: u32, y: u32) -> vec2
    ensures { result ≡ vnew (from_bits binary32 x) (from_bits binary32 y) }
{
    vec2::new(float_of(x), float_of(y))
}

pub fn is_point(p: vec2, x: u32, y: u32) -> bool
    ensures { result ≡ true → p ≡ vnew (from_bits binary32 x) (from_bits binary32 y) }
{
    is_float(p.x, x) && is_float(p.y, y)
}

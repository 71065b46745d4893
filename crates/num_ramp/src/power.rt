// The power rule: whole parts of an exponent by squares, its fraction by roots.
ghost use Rattle.std.specs.Prelude.{◌≡◌, not, T, is_nan};
ghost use Rattle.num_ramp.specs.Power.{parts, squares, roots, powf};

use num_root::root;

pub fn powf(c: f32, e: f32) -> f32
    ensures { result ≡ powf c e }
{
    if e.is_nan() {
        return e;
    }
    let k = parts(e);
    let p = roots(c, k, squares(c, k));
    if e < 0.0 { 1.0 / p } else { p }
}

// The exponent's size in parts of 65,536, cut.
fn parts(e: f32) -> u64
    requires { T (not (is_nan e)) }
    ensures { result ≡ parts e }
{
    if e == 0.0 {
        return 0;
    }
    let size = e.abs();
    if size < 256.0 {
        std::num::truncating_f32_to_u64(size * 65536.0)
    } else {
        16777215
    }
}

// Bits 16 to 23 of k.
fn squares(c: f32, k: u64) -> f32
    ensures { result ≡ squares c k }
{
    let mut p = 1.0;
    let mut q = c;
    for i in 0..8u64 {
        if (k >> (16 + i)) % 2 == 1 {
            p = p * q;
        }
        q = q * q;
    }
    p
}

// Bits 15 to 0 of k.
fn roots(c: f32, k: u64, from: f32) -> f32
    ensures { result ≡ roots c k from }
{
    let mut p = from;
    let mut r = c;
    for i in 0..16u64 {
        r = root(r);
        if (k >> (15 - i)) % 2 == 1 {
            p = p * r;
        }
    }
    p
}

// The angle of a target by a scan down through the tables: what fits is an initial stretch of them.
ghost use Rattle.std.specs.Prelude.{◌≡◌, ◌+◌, ◌-◌, ◌≤◌, nat_abs};
ghost use Rattle.aim_rule.specs.Angle.{fitting, largest, upper_angle};
ghost use Rattle.aim_rule.specs.Scan.{first_entry};
ghost use Rattle.aim_rule.specs.Search.{Target};
ghost use Rattle.aim_scan.specs.Scan.{scanned, upright_scan};

use crate::signs::{height, signed};
use aim_tables::{cosines, sines};

// The angle of a target, and how many entries were read for it.
// Both are answered for every target, so no Option: the second bounds the work.
#[derive(Clone, Copy)]
pub struct Scan {
    pub angle: i32,
    pub read: u32,
}

// The entry that a scan ended at, and how many it read.
#[derive(Clone, Copy)]
pub struct Found {
    pub n: usize,
    pub read: u32,
}

pub fn scan_angle(x: i32, y: i32) -> Scan
    ensures { result ≡ scanned x y }
{
    let found = upright_scan(x as i64, height(y));
    Scan {
        angle: signed(y, found.n),
        read: found.read,
    }
}

// The same for a target with y >= 0.
pub fn upright_scan(x: i64, y: i64) -> Found
    requires { Target x y }
    ensures { (result ≡ upright_scan x (nat_abs y)) × (result.n ≤ 804) }
{
    if y == 0 && x == 0 {
        return Found { n: 0, read: 0 };
    }
    scan_down(x, y, first_entry(x))
}

fn first_entry(x: i64) -> usize
    ensures { result ≡ first_entry x }
{
    if x > 0 { 402 } else { 804 }
}

// The angle of a target that a guess n leaves in doubt, and how many entries were read for it. The guess is hardly ever off by more than one, so a
// scan from the entry above it is short.
pub fn settled(x: i64, y: i64, n: usize) -> Found
    requires { Target x y × (n ≤ 804) }
    ensures { (result.n ≡ upper_angle x y) × (result.n ≤ 804) × (result.read ≤ 403) }
{
    let from = start(x, y, n);
    let found = scan_down(x, y, from.n);
    Found {
        n: found.n,
        read: from.read + found.read,
    }
}

// The entry above n, if the next one is inside the quarter and does not fit; else the first of the quarter. And how many entries were read to tell.
fn start(x: i64, y: i64, n: usize) -> Found
    requires { Target x y × (n ≤ 804) }
    ensures { (largest (fitting x y) result.n ≡ upper_angle x y) × (result.n ≤ first_entry x) × (result.read + result.n + 1 ≤ upper_angle x y + 403) }
{
    let first = first_entry(x);
    if n + 1 < first && first < n + 404 {
        if fits(x, y, n + 2) {
            return Found { n: first, read: 1 };
        }
        return Found { n: n + 1, read: 1 };
    }
    Found { n: first, read: 0 }
}

// From an entry down to the first that fits; entry 0 fits every target.
// A `while`: what ends it is an entry that fits, not a bound, and the entries that are read are counted.
fn scan_down(x: i64, y: i64, from: usize) -> Found
    requires { Target x y × (from ≤ 804) }
    ensures { (result.n ≡ largest (fitting x y) from) × (result.n ≤ from) × (result.read ≡ from + 1 - result.n) }
{
    let mut n = from;
    let mut read: u32 = 1;
    while !fits(x, y, n) {
        n -= 1;
        read += 1;
    }
    Found { n, read }
}

// An entry costs two products and one comparison.
fn fits(x: i64, y: i64, n: usize) -> bool
    requires { Target x y × (n ≤ 804) }
    ensures { result ≡ fitting x y n }
{
    let sin = sines();
    let cos = cosines();
    x * (sin[n] as i64) <= y * (cos[n] as i64)
}

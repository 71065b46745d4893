// Pairs of f32. Each operation rounds once, in the Rust's order.
#![tactic(auto)]

ghost use Rattle.std.specs.Prelude.{◌≡◌};
ghost use Rattle.num_vec2.specs.Vec2.{vnew, vadd, vsub, vmul, vdiv, vlength, vnormalize, vdistance, vdot, vmix, closest_point_on_line};

use num_convert::clamp;
use std::ops::{Add, Div, Mul, Sub};

#[derive(Clone, Copy)]
pub struct vec2 {
    pub x: f32,
    pub y: f32,
}

impl Add for vec2 {
    type Output = vec2;

    ghost add_gives = { λ a b r. r ≡ vadd a b };

    fn add(self, other: vec2) -> vec2 {
        vec2::new(self.x + other.x, self.y + other.y)
    }
}

impl Sub for vec2 {
    type Output = vec2;

    ghost sub_gives = { λ a b r. r ≡ vsub a b };

    fn sub(self, other: vec2) -> vec2 {
        vec2::new(self.x - other.x, self.y - other.y)
    }
}

impl Mul<f32> for vec2 {
    type Output = vec2;

    ghost mul_gives = { λ a b r. r ≡ vmul a b };

    fn mul(self, scalar: f32) -> vec2 {
        vec2::new(self.x * scalar, self.y * scalar)
    }
}

impl Div<f32> for vec2 {
    type Output = vec2;

    ghost div_gives = { λ a b r. r ≡ vdiv a b };

    fn div(self, scalar: f32) -> vec2 {
        vec2::new(self.x / scalar, self.y / scalar)
    }
}

impl vec2 {
    pub fn new(x: f32, y: f32) -> vec2
        ensures { result ≡ vnew x y }
    {
        vec2 { x: x, y: y }
    }

    pub fn length(self) -> f32
        ensures { result ≡ vlength self }
    {
        num_root::root(self.x * self.x + self.y * self.y)
    }

    pub fn normalize(self) -> vec2
        ensures { result ≡ vnormalize self }
    {
        self * (1.0 / self.length())
    }

    pub fn distance(first: vec2, second: vec2) -> f32
        ensures { result ≡ vdistance first second }
    {
        (second - first).length()
    }

    pub fn dot(first: vec2, second: vec2) -> f32
        ensures { result ≡ vdot first second }
    {
        first.x * second.x + first.y * second.y
    }

    pub fn mix(first: vec2, second: vec2, v: f32) -> vec2
        ensures { result ≡ vmix first second v }
    {
        first + (second - first) * v
    }

    // The line's length serves twice: the Rust finds it again in `normalize`.
    pub fn closest_point_on_line(self, line_p0: vec2, line_p1: vec2) -> vec2
        ensures { result ≡ closest_point_on_line self line_p0 line_p1 }
    {
        let line = line_p1 - line_p0;
        let length = line.length();
        let t = vec2::dot(line * (1.0 / length), self - line_p0) / length;
        vec2::mix(line_p0, line_p1, clamp(t, 0.0, 1.0))
    }
}

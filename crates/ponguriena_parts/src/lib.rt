// Floats, walks, angle and ramp, each by itself, so that they can be compared one by one. Each function is the one of the crates below with its name.
#![tactic(auto)]

mod aim;
mod walks;

ghost use Rattle.std.specs.Prelude.{◌≡◌};
ghost use Rattle.std.specs.Float.{binary32};
ghost use Rattle.num_root.specs.Root.{root};
ghost use Rattle.num_convert.specs.Whole.{round_to_i32, trunc_to_i32};
ghost use Rattle.num_convert.specs.Convert.{i32_to_f32, hundredths_to_f32, quantize, to256ths, from256ths, quantize256ths};

pub use aim::{ponguriena_net_angle, ponguriena_scan_angle, ponguriena_velocity_ramp};
pub use walks::{ponguriena_check_line, ponguriena_check_point, ponguriena_move_box};

pub fn ponguriena_root(x: f32) -> f32
    ensures { result ≡ root binary32 x }
{
    num_root::root(x)
}

pub fn ponguriena_round_to_i32(x: f32) -> i32
    ensures { result ≡ round_to_i32 x }
{
    num_convert::round_to_i32(x)
}

pub fn ponguriena_trunc_to_i32(x: f32) -> i32
    ensures { result ≡ trunc_to_i32 x }
{
    num_convert::trunc_to_i32(x)
}

pub fn ponguriena_i32_to_f32(n: i32) -> f32
    ensures { result ≡ i32_to_f32 n }
{
    num_convert::i32_to_f32(n)
}

pub fn ponguriena_hundredths_to_f32(n: i32) -> f32
    ensures { result ≡ hundredths_to_f32 n }
{
    num_convert::hundredths_to_f32(n)
}

pub fn ponguriena_quantize(x: f32) -> f32
    ensures { result ≡ quantize x }
{
    num_convert::quantize(x)
}

pub fn ponguriena_to_256ths(v: f32) -> i32
    ensures { result ≡ to256ths v }
{
    num_convert::to_256ths(v)
}

pub fn ponguriena_from_256ths(n: i32) -> f32
    ensures { result ≡ from256ths n }
{
    num_convert::from_256ths(n)
}

pub fn ponguriena_quantize_256ths(v: f32) -> f32
    ensures { result ≡ quantize256ths v }
{
    num_convert::quantize_256ths(v)
}

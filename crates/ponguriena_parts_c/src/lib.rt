// The C interface of the library `ponguriena_parts`: an export for each of its functions, with the same clauses.
#![tactic(auto)]

mod aim;
mod walks;

ghost use Rattle.std.specs.Prelude.{◌≡◌};
ghost use Rattle.std.specs.Float.{binary32};
ghost use Rattle.num_root.specs.Root.{root};
ghost use Rattle.num_convert.specs.Whole.{round_to_i32, trunc_to_i32};
ghost use Rattle.num_convert.specs.Convert.{i32_to_f32, hundredths_to_f32, quantize, to256ths, from256ths, quantize256ths};

#[unsafe(no_mangle)]
pub extern "C" fn ponguriena_root(x: f32) -> f32
    ensures { result ≡ root binary32 x }
{
    ponguriena_parts::ponguriena_root(x)
}

#[unsafe(no_mangle)]
pub extern "C" fn ponguriena_round_to_i32(x: f32) -> i32
    ensures { result ≡ round_to_i32 x }
{
    ponguriena_parts::ponguriena_round_to_i32(x)
}

#[unsafe(no_mangle)]
pub extern "C" fn ponguriena_trunc_to_i32(x: f32) -> i32
    ensures { result ≡ trunc_to_i32 x }
{
    ponguriena_parts::ponguriena_trunc_to_i32(x)
}

#[unsafe(no_mangle)]
pub extern "C" fn ponguriena_i32_to_f32(n: i32) -> f32
    ensures { result ≡ i32_to_f32 n }
{
    ponguriena_parts::ponguriena_i32_to_f32(n)
}

#[unsafe(no_mangle)]
pub extern "C" fn ponguriena_hundredths_to_f32(n: i32) -> f32
    ensures { result ≡ hundredths_to_f32 n }
{
    ponguriena_parts::ponguriena_hundredths_to_f32(n)
}

#[unsafe(no_mangle)]
pub extern "C" fn ponguriena_quantize(x: f32) -> f32
    ensures { result ≡ quantize x }
{
    ponguriena_parts::ponguriena_quantize(x)
}

#[unsafe(no_mangle)]
pub extern "C" fn ponguriena_to_256ths(v: f32) -> i32
    ensures { result ≡ to256ths v }
{
    ponguriena_parts::ponguriena_to_256ths(v)
}

#[unsafe(no_mangle)]
pub extern "C" fn ponguriena_from_256ths(n: i32) -> f32
    ensures { result ≡ from256ths n }
{
    ponguriena_parts::ponguriena_from_256ths(n)
}

#[unsafe(no_mangle)]
pub extern "C" fn ponguriena_quantize_256ths(v: f32) -> f32
    ensures { result ≡ quantize256ths v }
{
    ponguriena_parts::ponguriena_quantize_256ths(v)
}

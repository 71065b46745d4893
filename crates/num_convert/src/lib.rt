// Numbers between their types: f32 to whole numbers and back, the bits of an i32, and bounds of single numbers.
#![tactic(auto)]

mod casts;
mod float;
mod number;
mod whole;

pub use casts::{cast_signed, cast_unsigned};
pub use float::{from_256ths, hundredths_to_f32, i32_to_f32, quantize, quantize_256ths, to_256ths};
pub use number::{clamp, saturated_add};
pub use whole::{round_to_i32, trunc_to_i32};

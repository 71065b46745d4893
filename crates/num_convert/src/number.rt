// The size of a character, and bounds of single numbers.
ghost use Rattle.std.specs.Prelude.{◌≡◌};
ghost use Rattle.num_convert.specs.Number.{clamp, saturated_add};

// Not `f32::clamp`, which asks for bounds in order.
pub fn clamp(value: f32, min: f32, max: f32) -> f32
    ensures { result ≡ clamp value min max }
{
    if value < min {
        min
    } else if value > max {
        max
    } else {
        value
    }
}

pub fn saturated_add(min: f32, max: f32, value: f32, modifier: f32) -> f32
    ensures { result ≡ saturated_add min max value modifier }
{
    if modifier < 0.0 {
        if value < min {
            return value;
        }
    } else {
        if value > max {
            return value;
        }
    }
    clamp(value + modifier, min, max)
}

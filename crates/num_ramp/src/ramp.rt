// The velocity ramp.
ghost use Rattle.std.specs.Prelude.{◌≡◌};
ghost use Rattle.num_ramp.specs.Ramp.{velocity_ramp};

use crate::power::powf;

// The factor for a speed, by the tunings velramp_start, velramp_range and velramp_curvature.
pub fn velocity_ramp(value: f32, start: f32, range: f32, curvature: f32) -> f32
    ensures { result ≡ velocity_ramp value start range curvature }
{
    if value < start {
        1.0
    } else {
        1.0 / powf(curvature, (value - start) / range)
    }
}

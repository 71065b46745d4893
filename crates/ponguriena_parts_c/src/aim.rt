// The aim angle and the velocity ramp.
ghost use Rattle.std.specs.Prelude.{◌≡◌};
ghost use Rattle.aim_rule.specs.Angle.{net_angle};
ghost use Rattle.aim_rule.specs.Scan.{entries_read};
ghost use Rattle.num_convert.specs.Convert.{hundredths_to_f32};
ghost use Rattle.num_ramp.specs.Ramp.{velocity_ramp};

#[unsafe(no_mangle)]
pub extern "C" fn ponguriena_net_angle(x: i32, y: i32) -> i32
    ensures { result ≡ net_angle x y }
{
    ponguriena_parts::ponguriena_net_angle(x, y)
}

#[unsafe(no_mangle)]
pub extern "C" fn ponguriena_scan_angle(x: i32, y: i32, read: &mut u32) -> i32
    ensures { (result ≡ net_angle x y) × (read.new ≡ entries_read x y) }
{
    ponguriena_parts::ponguriena_scan_angle(x, y, read)
}

#[unsafe(no_mangle)]
pub extern "C" fn ponguriena_velocity_ramp(
    value: f32,
    start: i32,
    range: i32,
    curvature: i32,
) -> f32
    ensures { result ≡ velocity_ramp value (hundredths_to_f32 start) (hundredths_to_f32 range) (hundredths_to_f32 curvature) }
{
    ponguriena_parts::ponguriena_velocity_ramp(value, start, range, curvature)
}

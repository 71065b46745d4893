// The aim angle and the velocity ramp, whose tunings come in hundredths.
ghost use Rattle.std.specs.Prelude.{◌≡◌};
ghost use Rattle.aim_rule.specs.Angle.{net_angle};
ghost use Rattle.aim_rule.specs.Scan.{entries_read};
ghost use Rattle.num_convert.specs.Convert.{hundredths_to_f32};
ghost use Rattle.num_ramp.specs.Ramp.{velocity_ramp};

use num_convert::hundredths_to_f32;

pub fn ponguriena_net_angle(x: i32, y: i32) -> i32
    ensures { result ≡ net_angle x y }
{
    aim_angle::net_angle(x, y)
}

pub fn ponguriena_scan_angle(x: i32, y: i32, read: &mut u32) -> i32
    ensures { (result ≡ net_angle x y) × (read.new ≡ entries_read x y) }
{
    let scan = aim_scan::scan_angle(x, y);
    *read = scan.read;
    scan.angle
}

pub fn ponguriena_velocity_ramp(value: f32, start: i32, range: i32, curvature: i32) -> f32
    ensures { result ≡ velocity_ramp value (hundredths_to_f32 start) (hundredths_to_f32 range) (hundredths_to_f32 curvature) }
{
    num_ramp::velocity_ramp(
        value,
        hundredths_to_f32(start),
        hundredths_to_f32(range),
        hundredths_to_f32(curvature),
    )
}

// The aim angle of a target. No world is lent, so no role is named, and nothing is refused.
ghost use Rattle.std.specs.Prelude.{◌≡◌};
ghost use Rattle.aim_scan.specs.Scan.{scanned};

pub fn ponguriena_aim(target_x: i32, target_y: i32, entries_read: &mut u32) -> i32
    ensures { scanned target_x target_y ≡ record { angle = result; read = entries_read.new } }
{
    let scan = aim_scan::scan_angle(target_x, target_y);
    *entries_read = scan.read;
    scan.angle
}

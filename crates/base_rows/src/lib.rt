// A row written into a longer one.
#![tactic(auto)]

ghost use Rattle.std.specs.Prelude.{◌≡◌, ◌+◌, ◌≤◌, length};
ghost use Rattle.base_rows.specs.Put.{put};

// Puts a row into a buffer from `at` on.
pub fn copy<T: Copy>(numbers: &mut [T], at: usize, row: &[T])
    requires { at + length row.now ≤ length numbers.old }
    ensures { numbers.new ≡ put numbers.old at row.now }
{
    // By a loop, as its invariant tells a wrong byte from a right one; beside `copy_from_slice` no must-fail edit can.
    for i in 0..row.len() {
        numbers[at + i] = row[i];
    }
}

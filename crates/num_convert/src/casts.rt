// The bits of an i32 as u32, and back: Rust's `as` between the two.
ghost use Rattle.std.specs.Prelude.{◌≡◌};
ghost use Rattle.num_convert.specs.Casts.{cast_signed, cast_unsigned};

pub fn cast_signed(n: u32) -> i32
    ensures { result ≡ cast_signed n }
{
    n.cast_signed()
}

pub fn cast_unsigned(n: i32) -> u32
    ensures { result ≡ cast_unsigned n }
{
    n.cast_unsigned()
}

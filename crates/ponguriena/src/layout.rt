// Which numbers a world, a sender, a screen and what is passed along consist of, as one number: who keeps them from one version to the next compares it.
ghost use Rattle.std.specs.Prelude.{◌≡◌};
ghost use Rattle.ponguriena.specs.Layout.{layout};

// Another number whenever one of a buffer's numbers gets another place or meaning.
const LAYOUT: u32 = 1;

pub fn ponguriena_layout() -> u32
    ensures { result ≡ layout }
{
    LAYOUT
}

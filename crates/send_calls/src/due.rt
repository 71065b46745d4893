// When a message is due.
ghost use Rattle.std.specs.Prelude.{◌≡◌};
ghost use Rattle.send_rule.specs.Send.{due};

use crate::copies::MOST_STEPS;
use game_records::CharacterCore;
use send_rule::Copy;

// Of a copy that this step has stepped, beside the true record.
pub fn due(copy: Copy, core: CharacterCore) -> bool
    ensures { result ≡ due copy core }
{
    !copy.kept || copy.refused || copy.steps == MOST_STEPS || copy.core != core
}

// A role as one number, as C programs name it.
ghost use Rattle.std.specs.Prelude.{◌≡◌};
ghost use Rattle.role_rule.specs.Roles.{may_ask};

use crate::asking::allowed;
use role_rule::{Ask, Role};

// The numbers of the two roles that are no seat.
pub const REFEREE: i32 = -1;

pub const BOARD: i32 = -2;

// Whether the role with a number may ask it; what is no role's number may ask nothing.
pub fn may_ask(role: i32, ask: Ask) -> bool
    ensures { result ≡ may_ask role ask }
{
    if role >= 0 {
        return allowed(Role::Seat(role as u32), ask);
    }
    if role == REFEREE {
        return allowed(Role::Referee, ask);
    }
    if role == BOARD {
        return allowed(Role::Board, ask);
    }
    false
}

// A character, and its tick and move among the others.
#![tactic(auto)]

mod among;
mod from_record;
mod near;
mod places;
mod pulls;
mod rows;
mod slots;
mod tick;
mod to_record;
mod walk;

ghost use Rattle.std.specs.Prelude.{◌≡◌};
ghost use Rattle.character.specs.Character.{spawn, with_hook};

use character_hook::Hook;
use game_input::{Angle, MoveDirection};
use game_records::PlayerInput;
use num_vec2::vec2;
pub use places::{Places, places_of};
pub use pulls::{held_seat, pull_at};
pub use tick::{AfterTick, OwnTick};

#[derive(Clone, Copy)]
pub struct Character {
    pub pos: vec2,
    pub vel: vec2,
    pub hook: Hook,
    pub jumped_already: bool,
    pub used_airjump: bool,
    pub angle: Angle,
    pub move_direction: MoveDirection,
}

// How many characters a world has room for.
pub const SEATS: usize = 64;

// A place for a character: there or not, with its last input and its floor mark, what `grounded` answered in its last tick.
// A flag beside the character, not an Option: the rows of C keep the numbers of a slot where nobody is, and the laws say which.
#[derive(Clone, Copy)]
pub struct Slot {
    pub present: bool,
    pub character: Character,
    pub input: PlayerInput,
    pub grounded: bool,
}

impl Character {
    pub fn spawn(pos: vec2) -> Character
        ensures { result ≡ spawn pos }
    {
        Character {
            pos: pos,
            vel: vec2::new(0.0, 0.0),
            hook: Hook::Idle,
            jumped_already: false,
            used_airjump: false,
            angle: Angle::from_radians(0.0),
            move_direction: MoveDirection::None,
        }
    }

    pub fn with_hook(self, hook: Hook) -> Character
        ensures { result ≡ with_hook self hook }
    {
        Character { hook, ..self }
    }
}

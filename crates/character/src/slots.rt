// A slot: empty, joined, and with one of its parts set; and what a pull and its own tick leave of it.
ghost use Rattle.std.specs.Prelude.{◌≡◌, ◌<◌};
ghost use Rattle.character.specs.Slot.{no_input, empty_slot, joined_slot, with_character, with_input, with_grounded};
ghost use Rattle.character.specs.Tick.{seats, pulled_slot, ticked_slot};
ghost use Rattle.character.specs.Among.{pull_at};

use crate::pulls::pull_at;
use crate::tick::AfterTick;
use crate::{Character, Slot};
use character_meeting::HookPull;
use game_records::PlayerInput;
use game_tuning::Tuning;
use num_vec2::vec2;

impl Slot {
    pub fn empty() -> Slot
        ensures { result ≡ empty_slot }
    {
        Slot {
            present: false,
            character: Character::spawn(vec2::new(0.0, 0.0)),
            input: no_input(),
            grounded: false,
        }
    }

    pub fn joined(pos: vec2) -> Slot
        ensures { result ≡ joined_slot pos }
    {
        Slot {
            present: true,
            character: Character::spawn(pos),
            input: no_input(),
            grounded: false,
        }
    }

    pub fn with_character(mut self, character: Character) -> Slot
        ensures { result ≡ with_character self character }
    {
        self.character = character;
        self
    }

    pub fn with_input(mut self, input: PlayerInput) -> Slot
        ensures { result ≡ with_input self input }
    {
        self.input = input;
        self
    }

    pub fn with_grounded(mut self, grounded: bool) -> Slot
        ensures { result ≡ with_grounded self grounded }
    {
        self.grounded = grounded;
        self
    }

    // What its own tick leaves of it.
    pub fn ticked(mut self, after: AfterTick) -> Slot
        ensures { result ≡ ticked_slot self after }
    {
        let me = after.me;
        self.grounded = after.grounded;
        self.with_character(me)
    }

    // What the hook of another character does to whoever is in the slot, at the held seat.
    pub fn pull_by(self, me: Character, own: usize, held: usize, tuning: Tuning) -> Option<HookPull>
        requires { held < seats }
        ensures { result ≡ pull_at me.pos own held self.present self.character.pos self.character.vel tuning }
    {
        let other = self.character;
        pull_at(
            me.pos,
            own,
            held,
            self.present,
            other.pos,
            other.vel,
            tuning,
        )
    }

    // What a pull leaves of the slot at a seat.
    pub fn pulled(self, pull: Option<HookPull>, seat: usize) -> Slot
        ensures { result ≡ pulled_slot self pull seat }
    {
        let Some(pull) = pull else {
            return self;
        };
        if pull.cid.0 as usize != seat {
            return self;
        }
        let mut character = self.character;
        character.vel = pull.vel;
        self.with_character(character)
    }
}

fn no_input() -> PlayerInput
    ensures { result ≡ no_input }
{
    PlayerInput {
        direction: 0,
        target_x: 0,
        target_y: 0,
        jump: 0,
        hook: 0,
    }
}

// What goes to the screens: a copy of each seat as last sent, and what is passed along. Types only; the rules stand in specs/.
#![tactic(auto)]

use character::SEATS;
use game_records::{CharacterCore, PlayerInput};
use game_tuning::TUNINGS;

// A seat as last sent, stepped alone since: whether there is a copy, its record, the input of that time, whether its own small world has
// removed it, whether its last step was refused with 9, and the accepted steps since its last message, 150 at most.
// Flags beside the record, not an Option: the rows of a sender keep the numbers of a seat without a copy.
#[derive(Clone, Copy)]
pub struct Copy {
    pub kept: bool,
    pub core: CharacterCore,
    pub input: PlayerInput,
    pub removed: bool,
    pub refused: bool,
    pub steps: u32,
}

// What is passed along: the mark of an accepted step, a seat's message, a removal by spikes, an accepted leave, an accepted tuning.
#[derive(Clone, Copy)]
pub enum Passed {
    Mark,
    Message {
        id: u32,
        core: CharacterCore,
        input: PlayerInput,
    },
    Removal {
        id: u32,
    },
    Leave {
        id: u32,
    },
    Tune {
        index: u32,
        value: i32,
    },
}

// A screen's own copies and tunings. The sender has copies too, and the tunings of its world.
#[derive(Clone, Copy)]
pub struct Screen {
    pub copies: [Copy; SEATS],
    pub tunings: [i32; TUNINGS],
}

// The most that one call passes along: a mark, and a message and a removal of each seat.
pub const MOST_PASSED: usize = 1 + 2 * SEATS;

// One thing passed along, in an array.
#[derive(Clone, Copy)]
pub struct Item {
    pub passed: Passed,
}

// What a sender does for a call: its copies after it, and what it passes along; as many items as counted, and marks behind them.
#[derive(Clone, Copy)]
pub struct Sending {
    pub copies: [Copy; SEATS],
    pub count: usize,
    pub items: [Item; MOST_PASSED],
}

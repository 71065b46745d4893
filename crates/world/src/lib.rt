// The world of document 01: the slots and the tunings, what its calls answer, and the demand on all of them. Types only; the rules stand in specs/.
#![tactic(auto)]

mod call;
mod reading;

pub use call::Call;
use character::{SEATS, Slot};
use game_records::CharacterCore;
use game_tuning::TUNINGS;
pub use reading::{Query, Reading};

#[derive(Clone, Copy)]
pub struct World {
    pub slots: [Slot; SEATS],
    pub tunings: [i32; TUNINGS],
}

// The record of a seat, where somebody is there.
// A flag beside the record, not an Option: where nobody is the record is zeros, which C is told.
#[derive(Clone, Copy)]
pub struct Published {
    pub present: bool,
    pub core: CharacterCore,
}

// Who is removed, by rising id: as many ids as counted, and zeros behind them.
// A row with a count, not a Vec: there is no heap.
#[derive(Clone, Copy)]
pub struct Removed {
    pub count: usize,
    pub ids: [i32; SEATS],
}

// The records of a step, and who is removed after they are taken.
#[derive(Clone, Copy)]
pub struct Records {
    pub records: [Published; SEATS],
    pub removed: Removed,
}

// The world after a step, the records, and who is removed after they are taken.
#[derive(Clone, Copy)]
pub struct AfterStep {
    pub world: World,
    pub records: [Published; SEATS],
    pub removed: Removed,
}

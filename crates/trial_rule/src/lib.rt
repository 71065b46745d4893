// Trial players for a tuning: what is kept of each while it runs, and what a run gives. Types only; the rules and laws stand in specs/ and proofs/,
// trial_runs has the functions.
#![tactic(auto)]

use character::SEATS;

// What is kept of a seat: whether a trial player joined there, its target tile, the x of its last record, whether that step left it as it was, its smallest
// distance and the first step that reached it.
// A flag beside the numbers, not an Option: the target of a seat without a player has its numbers too.
#[derive(Clone, Copy)]
pub struct Player {
    pub joined: bool,
    pub column: u16,
    pub row: u16,
    pub x: i32,
    pub stayed: bool,
    pub distance: u16,
    pub step: u16,
}

// What the run of one tuning gives: the steps done, and the players.
#[derive(Clone, Copy)]
pub struct Tried {
    pub steps: u16,
    pub players: [Player; SEATS],
}

// Who asks something of a world, and what can be asked. Types only; what each may ask stands in specs/.
#![tactic(auto)]

use world::{Call, Query};

// A seat with its id.
#[derive(Clone, Copy)]
pub enum Role {
    Referee,
    Seat(u32),
    Board,
}

#[derive(Clone, Copy)]
pub enum Ask {
    Call(Call),
    Read(Query),
}

// How somebody could get to a place in one, two or three steps. Types only; the search and its laws stand in specs/ and proofs/. search_calls has the functions.
#![tactic(auto)]

// What is pressed in one step.
#[derive(Clone, Copy)]
pub struct Buttons {
    pub direction: i32,
    pub jump: i32,
}

// Whose record is to have which x and y, and the target of the stored input.
#[derive(Clone, Copy)]
pub struct Goal {
    pub id: i32,
    pub x: i32,
    pub y: i32,
    pub target_x: i32,
    pub target_y: i32,
}

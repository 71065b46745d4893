// What can be read of a world, and what a reader is told. Types only.
use game_records::{CharacterCore, PlayerInput};

// An id's record, floor mark or stored input, or the tuning with an index.
#[derive(Clone, Copy)]
pub enum Query {
    Record(i32),
    FloorMark(i32),
    PlayerInput(i32),
    Tuning(i32),
}

// What was asked for.
#[derive(Clone, Copy)]
pub enum Reading {
    Record(CharacterCore),
    FloorMark(bool),
    PlayerInput(PlayerInput),
    Tuning(i32),
}

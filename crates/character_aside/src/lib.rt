// Whom a way leaves aside.
#![tactic(auto)]

pub mod aside;
pub mod first;

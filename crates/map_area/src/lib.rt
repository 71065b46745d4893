// Is this area clear? The solid tiles of a rectangle, by running totals that are built once for a map.
#![tactic(auto)]

mod building;
mod changing;
mod counting;

pub use building::build;
pub use changing::change;
pub use counting::area;

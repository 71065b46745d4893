// The tables C and S of the angle rule, and the difference of products by which an angle is compared with their entries.
#![tactic(auto)]

mod cos;
mod product;
mod sin;

pub use cos::cosines;
pub use product::cross;
pub use sin::sines;

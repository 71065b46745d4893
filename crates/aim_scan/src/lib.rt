// The angle of a target by a scan down through the tables, and how many entries it read.
#![tactic(auto)]

pub mod scan;
pub mod signs;

pub use scan::{Scan, scan_angle};

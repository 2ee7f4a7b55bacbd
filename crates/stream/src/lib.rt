//! What bytes mean as a stream of numbers, and the headers of runs.
#![tactic(auto)]

pub mod header;
pub mod theorems;
pub mod width;

//! The elements of areas: what their blank is, and how the numbers of a stream are written as them.
#![tactic(auto)]

pub mod blank;
pub mod number;
pub mod slices;

//! Areas: lent memory with a filled count, and what values are appended to.
#![tactic(auto)]

pub mod area;
pub mod lent_values;
pub mod values_buffer;

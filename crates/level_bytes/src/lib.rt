//! The bytes of a page that hold its levels.
#![tactic(auto)]

pub mod cut;
pub mod encoding;
pub mod fault;
pub mod width;

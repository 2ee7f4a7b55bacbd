//! The strip: pages by records of bytes.
#![tactic(auto)]

mod record;
pub mod source;

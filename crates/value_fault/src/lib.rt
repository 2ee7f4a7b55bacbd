//! Why values cannot be had, and what values to come are.
#![tactic(auto)]

pub mod fault;

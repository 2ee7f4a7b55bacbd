//! Decoders of a column's levels.
#![tactic(auto)]

pub mod ahead;
pub mod asked;
mod block;
mod buffered;
pub mod column;
mod count;
pub mod course;
pub mod definition;
pub mod encoding;
pub mod lookahead;
pub mod refusal;
pub mod repetition;
pub mod source;
mod take;
pub mod theorems;
mod walk;

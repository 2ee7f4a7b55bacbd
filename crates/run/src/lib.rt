//! A reader of the numbers in a stream of runs, over the unpacking of packed numbers in bulk.
#![tactic(auto)]

mod bits;
pub mod copies;
mod high;
pub mod kind;
mod limit;
mod load;
mod low;
mod open;
pub mod order;
pub mod packed;
mod part;
mod read;
pub mod reader;
mod steps;
pub mod theorems;
mod word;

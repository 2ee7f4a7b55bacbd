//! Pages of a column chunk, the interface of the sources that hand them out, chains of two sources,
//! and a list of all pages of any source.
#![tactic(auto)]

pub mod chain;
pub mod fault;
pub mod list;
pub mod page;
pub mod reader;

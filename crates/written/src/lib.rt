//! The written list: a source over rows in the caller's memory.
#![tactic(auto)]

pub mod fault;
pub mod list;

pub use fault::RowsFault;
pub use list::{MOST_ROWS, WrittenList};

//! Sources: lists of statement instances, by the questions that they answer.
#![tactic(auto)]

pub mod borrowed;
pub mod counts;
pub mod parts;
pub mod source;

pub use counts::Counts;
pub use parts::Parts;
pub use source::{MOST_CELLS, MOST_INSTANCES, Source};

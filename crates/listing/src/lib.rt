//! The text of a whole trace: a line for each record, and a last line with their number or the refusal.
#![tactic(auto)]

pub mod fault;
pub mod listing;

pub use fault::ListFault;
pub use listing::Listing;

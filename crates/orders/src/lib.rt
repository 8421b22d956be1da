//! Faithful orders of a list of instances: the theory on which the check of an order rests.
#![tactic(auto)]

pub mod examples;
pub mod neighbours;

pub use neighbours::{conflict, exchange};

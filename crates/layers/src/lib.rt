//! Layers: sources made of other sources.
#![tactic(auto)]

pub mod after;
pub mod rounds;

pub use after::After;
pub use rounds::Rounds;

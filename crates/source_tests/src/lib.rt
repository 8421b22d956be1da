//! Tests of sources and layers.
#![tactic(auto)]

#[cfg(test)]
mod compared;
#[cfg(test)]
mod layered;
#[cfg(test)]
mod rows;

//! Tests of records, traces and listings, on cases that were worked out by hand or by a script.
#![tactic(auto)]

#[cfg(test)]
mod cases;
#[cfg(test)]
mod examples;
#[cfg(test)]
mod maps;

//! Records of a trace: what they are, what they mean, and how one is shown as text.
#![tactic(auto)]

pub mod fault;
pub mod record;
pub mod row;

pub use fault::RecordFault;
pub use record::Record;
pub use row::{MOST_READS, Row};

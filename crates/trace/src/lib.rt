//! Traces: the bytes of records.
#![tactic(auto)]

pub mod fault;
mod layout;
pub mod reader;
mod reading;
pub mod whole;
pub mod writing;

pub use fault::{ReadCause, ReadFault, TraceFault, WriteFault};
pub use reader::TraceReader;
pub use whole::read_trace;
pub use writing::write_record;

//! Where bytes come from and go to: sources and sinks whose faults are counted, whole reads and whole
//! writes over them, sources and sinks over memory for tests, and the edge to std's readers and writers.
#![tactic(auto)]

pub mod adapters;
pub mod memory;
pub mod sink;
pub mod source;
pub mod whole;

pub use adapters::{ReadSource, WriteSink};
pub use memory::{MemSink, MemSource};
pub use sink::Sink;
pub use source::{Failed, Source};
pub use whole::{InFault, OutFault, read_all, write_all};

//! Files in folders and takers of bytes, over memory and over the host, with the counts of their faults.
#![tactic(auto)]

mod failing;
mod failure;
mod faults;
mod files;
mod host_files;
mod host_sink;
mod listing;
mod memory_files;
mod memory_sink;
mod replacing;
mod sink;

pub use failure::host_word;
pub use faults::{FileFault, FileResult, SinkFault};
pub use files::Files;
pub use host_files::HostFiles;
pub use host_sink::HostSink;
pub use memory_files::MemoryFiles;
pub use memory_sink::MemorySink;
pub use sink::Sink;

//! The outside world: files that are read and a sink that is written, as traits with a count of their
//! faults; objects in memory that tell what they hold; and adapters to the real ones, which tell nothing.
#![tactic(auto)]

mod clean_files;
mod disk;
mod files;
mod laws;
mod memory_files;
mod memory_sink;
mod real_files;
mod real_sink;
mod sink;

pub use clean_files::CleanFiles;
pub use disk::{Disk, read_from};
pub use files::{FileError, SourceFiles};
pub use laws::{memory_files_tell, memory_sinks_tell};
pub use memory_files::MemoryFiles;
pub use memory_sink::MemorySink;
pub use real_files::{RealFiles, read_within};
pub use real_sink::RealSink;
pub use sink::{CleanSink, Sink, SinkFailed};

//! The edge to the world: shelves, from which texts are fetched by name, and sinks, into which
//! bytes are put. Both stand in memory, or over files that are opened and an outlet that is written
//! to. Only the files and the output of a host tell nothing of what they hold.
#![tactic(auto)]

mod counts;
mod fault;
mod file_shelf;
mod host_files;
mod host_output;
mod memory_shelf;
mod memory_sink;
mod outlet;
mod shelf;
mod sink;
mod source;
mod writer_sink;

pub use fault::{FetchFault, OutOfMemory, SinkFailed};
pub use file_shelf::FileShelf;
pub use host_files::{HostFile, HostFiles};
pub use host_output::HostOutput;
pub use memory_shelf::MemoryShelf;
pub use memory_sink::MemorySink;
pub use outlet::{Outlet, WriteFailed};
pub use shelf::Shelf;
pub use sink::Sink;
pub use source::{Opener, ReadFailed, Source};
pub use writer_sink::WriterSink;

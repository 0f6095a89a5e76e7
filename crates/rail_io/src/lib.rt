//! Files as the planner reads them, and documents as it writes them: a folder, a sink, and whole files over these.
#![tactic(auto)]

pub mod disk;
pub mod folder;
pub mod laws;
pub mod memory;
pub mod sink;
pub mod sure;
pub mod whole;

pub use disk::{DiskFolder, StdoutSink};
pub use folder::{Failed, Folder};
pub use memory::{MemoryFile, MemoryFolder, MemorySink};
pub use sink::Sink;
pub use sure::{SureFolder, SureSink};
pub use whole::{FileRefusal, read_file, write_all};

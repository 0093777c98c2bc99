//! The outside of a session: where input comes from, where text goes and where files lie, and kinds of these in memory.
#![tactic(auto)]

mod buffer;
mod calls;
mod fault;
mod files;
mod log_buffer;
mod made;
mod mem_files;
mod mem_recorder;
mod mem_sink;
mod mem_source;
mod name;
mod recorder;
mod recorders;
mod sink;
mod source;
mod store;
mod sure_files;
mod sure_sink;
mod sure_source;
mod unread;

pub use fault::{Failed, FilesFault, ShortWrite};
pub use files::{Fetched, Files};
pub use made::{Made, Steps};
pub use mem_files::MemFiles;
pub use mem_recorder::MemRecorder;
pub use mem_sink::MemSink;
pub use mem_source::MemSource;
pub use name::is_name;
pub use recorder::Recorder;
pub use recorders::Recorders;
pub use sink::{Sink, write_all};
pub use source::Source;
pub use std::alloc::AllocError as Memory;
pub use sure_files::SureFiles;
pub use sure_sink::SureSink;
pub use sure_source::SureSource;

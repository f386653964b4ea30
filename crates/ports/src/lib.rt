//! What the program reads from and writes to: sources, sinks and files, lines of a script in memory of a fixed size, and
//! output that goes out in large pieces.
#![tactic(auto)]

mod again;
mod arguments;
mod block;
mod buffered_sink;
mod calls;
mod disk_files;
mod failed;
mod files;
pub mod fixed_line;
mod line;
mod line_words;
mod mem_files;
mod mem_sink;
mod mem_source;
mod reader;
mod real;
mod sink;
mod source;

pub use arguments::Words;
pub use buffered_sink::Gathering;
pub use disk_files::DiskFiles;
pub use failed::Failed;
pub use files::{FileBytes, FileFail, FileFault, Files, read_file};
pub use line::{Line, LineFault, LineText};
pub use line_words::{push_decimal, push_ns, push_word};
pub use mem_files::MemFiles;
pub use mem_sink::MemSink;
pub use mem_source::MemSource;
pub use reader::LineReader;
pub use real::{StdSink, StdSource};
pub use sink::{Sink, write_whole};
pub use source::Source;

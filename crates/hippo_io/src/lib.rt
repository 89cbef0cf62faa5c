//! Sources and sinks of bytes, and the splitting of the input into lines.
#![tactic(auto)]

mod counts;
mod lines;
mod memory_sink;
mod memory_source;
mod sink;
mod source;
mod std_sink;
mod std_source;
mod std_stream;
mod trace;

pub use lines::{Line, LineFault, LineReader};
pub use memory_sink::MemorySink;
pub use memory_source::MemorySource;
pub use sink::{Sink, write_whole};
pub use source::{Failed, Source};
pub use std_sink::StdSink;
pub use std_source::StdSource;
pub use std_stream::StdStream;
pub use trace::Trace;

// The standard output, beside sinks in memory.

mod stdout;

pub use stdout::StdoutSink;
pub use tool_files::sink::{MemSink, SafeSink, Sink, SinkFault};

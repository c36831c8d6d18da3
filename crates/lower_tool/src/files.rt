// The files of the system, beside those in memory.

mod dir;

pub use dir::DirFiles;
pub use tool_files::files::{FailAt, FileFault, Files, MemFiles, SafeFiles};

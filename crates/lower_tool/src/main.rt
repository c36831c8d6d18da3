// The program `wasm1`: it lowers a module of WebAssembly 3.0 to a module of 1.0.
#![tactic(auto)]

mod checking;
pub mod files;
pub mod laws;
pub mod lowering;
mod running;
pub mod sink;
#[cfg(test)]
mod tests;
pub mod tool;
pub mod verdict;

use files::DirFiles;
use num_core::lists::{Text, Texts};
use sink::StdoutSink;
use std::process::ExitCode;
use std::rt::Env;
use std::{env, io};
use tool::{Stop, report, tool, usage};

fn main(rt: HostRuntime) -> ExitCode {
    let mut out = StdoutSink::new(&rt);
    let status = match words(&rt) {
        Ok(words) => tool(rt.alloc(), &words, &mut DirFiles::new(&rt), &mut out),
        Err(error) if error.kind() == io::ErrorKind::OutOfMemory => {
            report(Stop::OutOfMemory, &mut out)
        }
        Err(_) => usage(&mut out),
    };
    ExitCode::from(status)
}

/// The words after the program's name. Those that are not text are an error.
fn words<R: Env + AllocGlobal>(rt: &R) -> io::Result<Texts> {
    let mut words = Texts::new(rt.alloc());
    for word in env::args(rt)?.skip(1) {
        words.push(Text::new(rt.alloc(), word.as_str())?)?;
    }
    Ok(words)
}

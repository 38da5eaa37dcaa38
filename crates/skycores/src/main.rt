//! SkyBridge on threads: each core of a bundle is a thread of this computer; the journal of their steps and its report out.
//!
//! `cores` is the top call: it takes the words of the command line, a source, a sink and a gate, and its contract says what is
//! written and when each status comes. `main` hands it the standard streams, and a gate that does nothing.
//!
//! The way through: `words` (the command), `cores` (reading, threads, writing and statuses), `text` (what is written of a run).
//! What they call: `sb_input` reads the bundle and loads it, and `sb_book` runs the cores, in blocks of steps beside a lock.
//!
//! ```text
//! skycores run --steps 100 --block 8 < five.bundle
//! ```
#![tactic(auto)]

mod cores;
#[cfg(test)]
mod tests;
mod text;
mod words;

pub use cores::cores;
use sb_book::OpenGate;
pub use sb_input::Status;
use sb_port::{ReadSource, WriteSink};
use sb_words::command_words;
use std::io;
use std::process::ExitCode;

fn main(rt: HostRuntime) -> ExitCode {
    let Ok(words) = command_words(rt.alloc(), &rt) else {
        return ExitCode::from(Status::NoMemory.number());
    };
    let mut source = ReadSource::new(rt.reader());
    let mut sink = WriteSink::new(io::writer(&rt));
    let status = cores(&rt, rt.alloc(), &words, &mut source, &mut sink, &OpenGate);
    ExitCode::from(status.number())
}

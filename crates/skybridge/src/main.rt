//! SkyBridge: guest images in, the report of their run out, and the memory of the machine that made it; or what their texts are
//! rewritten to; or images to run.
//!
//! `bridge` is the top call: it takes the words of the command line, a source and a sink, and its contract says what is
//! written, when each status comes, and which machine is left. `main` hands it the standard streams.
//!
//! The way through: `words` (which command), `bridge` (reading, writing and statuses), `writing` (what goes to the sink),
//! `machine_run` and `plain_run` (a run on a bundle's schedule), `command_text` (the text of `check` and `rewrite`), `generated`
//! (what is written of a generated bundle), `help` (the text of `--help`). What they call: `sb_input` reads a bundle and loads it,
//! `sb_machine` and `sb_plain` run it, `sb_trace` writes the report, and `sb_generator` makes a bundle from a number.
//!
//! ```text
//! skybridge replay < five.bundle
//! skybridge gen 42 --bundle | skybridge replay
//! ```
#![tactic(auto)]

mod bridge;
mod command_text;
mod generated;
mod help;
mod machine_run;
mod plain_run;
#[cfg(test)]
mod tests;
mod words;
mod writing;

pub use bridge::{bridge, one_output};
pub use sb_generator::{gen_bundle, generated_is_loadable};
pub use sb_input::Status;
use sb_port::{ReadSource, WriteSink};
use sb_words::command_words;
use std::io;
use std::process::ExitCode;

fn main(rt: HostRuntime) -> ExitCode {
    let Ok(words) = command_words(rt.alloc(), &rt) else {
        return ExitCode::from(Status::NoMemory.number());
    };
    let mut source = ReadSource::new(rt.reader());
    let mut sink = WriteSink::new(io::writer(&rt));
    let mut kept = None;
    let status = bridge(rt.alloc(), &words, &mut source, &mut sink, &mut kept);
    ExitCode::from(status.number())
}

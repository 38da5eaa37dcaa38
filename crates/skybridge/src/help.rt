//! The help text.

use clap::{Arg, ArgAction, Command};
use std::alloc::{AllocError, Global};

const ABOUT: &str = "A call facility between guest processes that needs no kernel on its path";

const USAGE: &str = "\
skybridge replay [--dump] | plain | check | rewrite
       skybridge gen <NUMBER> [--bundle]
       skybridge --help";

const READING_AND_STATUSES: &str = "\
A bundle is read from standard input; what is written goes to standard output.

Statuses:
  0  the whole output was written
  2  the words are no command; writes: usage: skybridge --help
  3  standard input failed; writes: read fault
  4  standard output failed
  5  the input is no bundle; writes: bundle <NAME> <OFFSET>
  6  the bundle cannot be loaded; writes: process <NUMBER> <NAME> <ADDRESS>, or
     entry <CORE> <ADDRESS>, or frames <NEED> <HAVE>
  7  memory did not suffice; writes nothing
  8  the input is longer than 64 MiB; writes: input too long";

/// A command that is one word.
fn one_word<'a>(alloc: Global, word: &'a str, about: &'a str) -> Command<'a> {
    Command::new(alloc, word)
        .about(about)
        .disable_help_flag(true)
}

/// The command that runs a bundle on the machine with page tables.
fn replay<'a>(alloc: Global) -> Result<Command<'a>, AllocError> {
    let dump = Arg::new(alloc, "dump")
        .long("dump")
        .action(ArgAction::SetTrue);
    one_word(
        alloc,
        "replay",
        "Reads a bundle; writes the report of its run, step by step, and with --dump behind it\n\
         the memory of the machine",
    )
    .arg(dump)
}

/// The command that generates a bundle.
fn generate<'a>(alloc: Global) -> Result<Command<'a>, AllocError> {
    let number = Arg::new(alloc, "NUMBER").required(true);
    let bundle = Arg::new(alloc, "bundle")
        .long("bundle")
        .action(ArgAction::SetTrue);
    one_word(
        alloc,
        "gen",
        "Reads nothing; generates a bundle from a number (0 to 18446744073709551615) and runs it;\n\
         writes how many lines of each kind its report has, or with --bundle the bundle itself",
    )
    .arg(number)?
    .arg(bundle)
}

/// The words of the command line, as `clap` describes them. It renders the help text alone: `words` reads the command line.
pub fn described<'a>(alloc: Global) -> Result<Command<'a>, AllocError> {
    let help = Arg::new(alloc, "help")
        .long("help")
        .action(ArgAction::Help)
        .help("Reads nothing; writes this text");
    Command::new(alloc, "skybridge")
        .about(ABOUT)
        .override_usage(USAGE)
        .after_help(READING_AND_STATUSES)
        .subcommand_required(true)
        .disable_help_flag(true)
        .disable_help_subcommand(true)
        .arg(help)?
        .subcommand(replay(alloc)?)?
        .subcommand(one_word(
            alloc,
            "plain",
            "Reads a bundle; writes the report of its run on the plain machine",
        ))?
        .subcommand(one_word(
            alloc,
            "check",
            "Reads a bundle; writes ok, the frames that it takes, and those that it has",
        ))?
        .subcommand(one_word(
            alloc,
            "rewrite",
            "Reads a bundle; writes for each process the instructions that are rewritten",
        ))?
        .subcommand(generate(alloc)?)
}

/// The help text: what each command reads, writes and answers.
pub fn help_text(alloc: Global) -> Result<String, AllocError> {
    described(alloc)?.render_help()
}

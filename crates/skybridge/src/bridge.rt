//! The top call.

ghost use Rattle.std.specs.Prelude.{◌≡◌, ◌≢◌, ◌<◌, ℕ, List, None, IfSome, ◌↔◌, ◌⊎◌, string_bytes};
ghost use Rattle.std.specs.Option.{IsSome};
ghost use Rattle.sb_port.specs.Port.{Rose, TookFirst};
ghost use Rattle.sb_bundle.specs.declared.bundle.Bundle.{Bundle};
ghost use Rattle.sb_input.specs.Told.{IsTold, WhereTold, WritesLine};
ghost use Rattle.sb_input.specs.Input.{input_limit, IsTooLong, SomeNoBundle, SomeNotLoadable, SomeAccepted};
ghost use Rattle.sb_input.specs.Lines.{read_fault_line, too_long_line};
ghost use Rattle.sb_load.specs.Loading.{IsLoadable};
ghost use Rattle.sb_words.specs.Words.{word_texts};
ghost use Rattle.skybridge.specs.declared.words.BundleCommand.{BundleCommand};
ghost use Rattle.skybridge.specs.declared.words.Command.{Command};
ghost use Rattle.skybridge.specs.Output.{IsOutput, IsReportWithDump, HaveSameRun, IsSummary, ReportedAs, PartlyReported, Wrote, PartlyWrote, RefusedBundle, RefusedLoad};
ghost use Rattle.skybridge.specs.Lawful.{IsLawfulOutput, WroteLawfully};
ghost use Rattle.skybridge.specs.Kept.{RunsMachine, RunMachine, LeavesOf, HasDumpOf, HasRunFor, IsLeft, ReportedWithDump};
ghost use Rattle.skybridge.specs.Words.{AreWordsOf, IsCommand, ReadsBundle, usage_line};
ghost use Rattle.skybridge.specs.Written.{Writes};
ghost use Rattle.sb_input.specs.Status.{IsOwn};

use crate::command_text::{check_text, rewrite_text};
use crate::generated::generated_bytes;
use crate::help::help_text;
use crate::words::{BundleCommand, Command, command_of};
use crate::writing::{replay, replay_with_dump, summarize, write_made, write_plain, write_text};
use sb_input::{
    InputRefusal, READ_FAULT_LINE, Status, TOO_LONG_LINE, bundle_line, load_line, read_loaded,
    refuse, refuse_by,
};
use sb_load::Loaded;
use sb_machine::Machine;
use sb_port::{Sink, Source};
use std::alloc::Global;

/// The line where the words are no command.
const USAGE_LINE: &str = "usage: skybridge --help\n";

/// Writes what a command has to write of what was loaded, and leaves the machine that it ran.
fn write_output<K: Sink>(
    alloc: Global,
    command: BundleCommand,
    loaded: &Loaded,
    sink: &mut K,
    kept: &mut Option<Machine>,
) -> Status
    requires loadable { IsLoadable loaded.now }
    requires none { kept.old ≡ None }
    ensures written { Writes (IsOutput command loaded.now.bundle) result (K.held sink.old) (K.held sink.new)
        (K.faults sink.old) (K.faults sink.new) }
    ensures left { LeavesOf command loaded.now.bundle result kept.new }
    ensures dumped { result ≡ Status.Done → command ≡ BundleCommand.ReplayDump
        → IfSome kept.new (λ machine. HasDumpOf machine loaded.now.bundle (K.held sink.old) (K.held sink.new)) }
{
    match command {
        BundleCommand::Replay => replay(alloc, loaded, sink, kept),
        BundleCommand::ReplayDump => replay_with_dump(alloc, loaded, sink, kept),
        BundleCommand::Plain => write_plain(alloc, loaded, sink),
        BundleCommand::Check => write_text(sink, check_text(alloc, loaded)),
        BundleCommand::Rewrite => write_text(sink, rewrite_text(alloc, loaded)),
    }
}

/// Runs a command on the bundle that the source gives.
#[tactic(auto, using(crate::proofs::Lawful::lawful))]
fn run_on_bundle<S: Source, K: Sink>(
    alloc: Global,
    command: BundleCommand,
    source: &mut S,
    sink: &mut K,
    kept: &mut Option<Machine>,
) -> Status
    requires none { kept.old ≡ None }
    ensures known { ¬ (result ≡ Status.BadWords) }
    ensures done { result ≡ Status.Done
        → ReportedAs (IsOutput command) (S.left source.old) (S.left source.new) (K.held sink.old) (K.held sink.new) }
    ensures lawful { result ≡ Status.Done
        → ReportedAs (IsLawfulOutput command) (S.left source.old) (S.left source.new) (K.held sink.old) (K.held sink.new) }

    ensures left { IfSome kept.new (λ machine.
        RunsMachine (Command.OfBundle command) × HasRunFor (Command.OfBundle command) (S.left source.old) (S.left source.new) machine) }
    ensures left_where { RunsMachine (Command.OfBundle command) → (result ≡ Status.Done) ⊎ (result ≡ Status.WriteFault)
        → IsSome kept.new }
    ensures left_only { IsSome kept.new → (result ≡ Status.Done) ⊎ (result ≡ Status.WriteFault) }
    ensures dumped { result ≡ Status.Done → command ≡ BundleCommand.ReplayDump → IfSome kept.new (λ machine.
        ReportedWithDump (S.left source.old) (S.left source.new) (K.held sink.old) (K.held sink.new) machine) }

    ensures read_fault { result ≡ Status.ReadFault → Rose (S.faults source.old) (S.faults source.new) }
    ensures read_fault_line { result ≡ Status.ReadFault
        → WritesLine (K.held sink.old) (K.held sink.new) (K.faults sink.old) (K.faults sink.new) read_fault_line }

    ensures too_long { result ≡ Status.TooLong → WhereTold (S.left source.old) IsTooLong }
    ensures taken { TookFirst (S.left source.old) (S.left source.new) (λ count.
        (result ≡ Status.TooLong) ↔ (input_limit < count)) }
    ensures long { IsTold (S.left source.old) IsTooLong
        → ¬ Rose (S.faults source.old) (S.faults source.new) → (result ≡ Status.TooLong) ⊎ (result ≡ Status.NoMemory) }
    ensures too_long_line { result ≡ Status.TooLong
        → WritesLine (K.held sink.old) (K.held sink.new) (K.faults sink.old) (K.faults sink.new) too_long_line }

    ensures bundle_refused { result ≡ Status.BundleRefused
        → RefusedBundle (S.left source.old) (S.left source.new) (K.held sink.old) (K.held sink.new)
        (K.faults sink.old) (K.faults sink.new) }
    ensures no_bundle { IsTold (S.left source.old) SomeNoBundle
        → ¬ Rose (S.faults source.old) (S.faults source.new) → (result ≡ Status.BundleRefused) ⊎ (result ≡ Status.NoMemory) }

    ensures load_refused { result ≡ Status.LoadRefused
        → RefusedLoad (S.left source.old) (S.left source.new) (K.held sink.old) (K.held sink.new)
        (K.faults sink.old) (K.faults sink.new) }
    ensures not_loadable { IsTold (S.left source.old) SomeNotLoadable
        → ¬ Rose (S.faults source.old) (S.faults source.new) → (result ≡ Status.LoadRefused) ⊎ (result ≡ Status.NoMemory) }

    ensures write_fault { result ≡ Status.WriteFault → Rose (K.faults sink.old) (K.faults sink.new) }
    ensures write_fault_part { result ≡ Status.WriteFault
        → PartlyReported command (S.left source.old) (S.left source.new) (K.held sink.old) (K.held sink.new) }

    ensures no_memory { result ≡ Status.NoMemory → K.held sink.new ≡ K.held sink.old }

    ensures complete { IsTold (S.left source.old) SomeAccepted
        → ¬ Rose (S.faults source.old) (S.faults source.new) → ¬ Rose (K.faults sink.old) (K.faults sink.new)
        → (result ≡ Status.Done) ⊎ (result ≡ Status.NoMemory) }
{
    let loaded = match read_loaded(alloc, source) {
        Ok(loaded) => loaded,
        Err(InputRefusal::ReadFault) => return refuse(sink, READ_FAULT_LINE, Status::ReadFault),
        Err(InputRefusal::TooLong) => return refuse(sink, TOO_LONG_LINE, Status::TooLong),
        Err(InputRefusal::Bundle(why)) => {
            return refuse_by(sink, bundle_line(alloc, why), Status::BundleRefused);
        }
        Err(InputRefusal::Load(why)) => {
            return refuse_by(sink, load_line(alloc, why), Status::LoadRefused);
        }
        Err(InputRefusal::Memory) => return Status::NoMemory,
    };
    write_output(alloc, command, &loaded, sink, kept)
}

/// Runs the command of the words, from the source to the sink.
///
/// A refusal keeps its status where its line could not be written whole. Causes are tried in the order words, reading,
/// bundle, loading, run, writing; once the words are a command, `NoMemory` may come anywhere between. Commands that read no
/// bundle leave the source as it is. `kept` is left with the machine with page tables that made the run's steps, where the
/// command runs it and a text was written, whole or in part.
pub fn bridge<S: Source, K: Sink>(
    alloc: Global,
    words: &Vec<String>,
    source: &mut S,
    sink: &mut K,
    kept: &mut Option<Machine>,
) -> Status
    // The words are a command, and its text was appended: of an accepted bundle, which was read to the end of the source;
    // the summary of the generated bundle's run; that bundle itself; or the help text.
    ensures done { result ≡ Status.Done
        → Wrote (word_texts words.now.items) (S.left source.old) (S.left source.new) (K.held sink.old) (K.held sink.new) }
    // The landing lines of the run behind a report or a summary can be left out: the others are the lines of a machine that
    // calls in one step, and the report without its lines `landing` and `flight` is that machine's report. And VMFUNC's bytes
    // may be fetched at one address alone.
    ensures lawful { result ≡ Status.Done
        → WroteLawfully (word_texts words.now.items) (S.left source.old) (S.left source.new) (K.held sink.old) (K.held sink.new) }

    // A machine is left exactly where the command runs the machine with page tables and ended with `Done` or `WriteFault`. It has
    // made the run: it stands for the last state, and each core has made as many lines as the schedule has entries of it.
    ensures left { IfSome kept.new (λ machine. IsLeft (word_texts words.now.items) (S.left source.old) (S.left source.new) machine) }
    ensures left_where { RunMachine (word_texts words.now.items) → (result ≡ Status.Done) ⊎ (result ≡ Status.WriteFault)
        → IsSome kept.new }
    ensures left_only { IsSome kept.new → (result ≡ Status.Done) ⊎ (result ≡ Status.WriteFault) }
    // A dump that was written whole is the dump of this machine.
    ensures dumped { result ≡ Status.Done → AreWordsOf (Command.OfBundle BundleCommand.ReplayDump) (word_texts words.now.items)
        → IfSome kept.new (λ machine.
        ReportedWithDump (S.left source.old) (S.left source.new) (K.held sink.old) (K.held sink.new) machine) }

    ensures bad_words { (result ≡ Status.BadWords) ↔ (¬ IsCommand (word_texts words.now.items)) }
    ensures bad_words_line { result ≡ Status.BadWords
        → WritesLine (K.held sink.old) (K.held sink.new) (K.faults sink.old) (K.faults sink.new) usage_line }

    // Where the words are no command that reads a bundle, nothing is read, and no answer speaks of reading.
    ensures unread { ¬ ReadsBundle (word_texts words.now.items) → source.new ≡ source.old }
    ensures own { ¬ ReadsBundle (word_texts words.now.items) → IsOwn result }

    ensures read_fault { result ≡ Status.ReadFault → Rose (S.faults source.old) (S.faults source.new) }
    ensures read_fault_line { result ≡ Status.ReadFault
        → WritesLine (K.held sink.old) (K.held sink.new) (K.faults sink.old) (K.faults sink.new) read_fault_line }

    // An input that is longer than the limit is refused as such, and no other input is: exactly where a byte past the limit
    // was taken.
    ensures too_long { result ≡ Status.TooLong → WhereTold (S.left source.old) IsTooLong }
    ensures taken { ReadsBundle (word_texts words.now.items) → TookFirst (S.left source.old) (S.left source.new) (λ count.
        (result ≡ Status.TooLong) ↔ (input_limit < count)) }
    ensures long { ReadsBundle (word_texts words.now.items) → IsTold (S.left source.old) IsTooLong
        → ¬ Rose (S.faults source.old) (S.faults source.new) → (result ≡ Status.TooLong) ⊎ (result ≡ Status.NoMemory) }
    ensures too_long_line { result ≡ Status.TooLong
        → WritesLine (K.held sink.old) (K.held sink.new) (K.faults sink.old) (K.faults sink.new) too_long_line }

    // An input that is no bundle is refused as such, and no other input is.
    ensures bundle_refused { result ≡ Status.BundleRefused
        → RefusedBundle (S.left source.old) (S.left source.new) (K.held sink.old) (K.held sink.new)
        (K.faults sink.old) (K.faults sink.new) }
    ensures no_bundle { ReadsBundle (word_texts words.now.items) → IsTold (S.left source.old) SomeNoBundle
        → ¬ Rose (S.faults source.old) (S.faults source.new) → (result ≡ Status.BundleRefused) ⊎ (result ≡ Status.NoMemory) }

    // A bundle that the loader refuses is refused as such, and no other input is.
    ensures load_refused { result ≡ Status.LoadRefused
        → RefusedLoad (S.left source.old) (S.left source.new) (K.held sink.old) (K.held sink.new)
        (K.faults sink.old) (K.faults sink.new) }
    ensures not_loadable { ReadsBundle (word_texts words.now.items) → IsTold (S.left source.old) SomeNotLoadable
        → ¬ Rose (S.faults source.old) (S.faults source.new) → (result ≡ Status.LoadRefused) ⊎ (result ≡ Status.NoMemory) }

    ensures write_fault { result ≡ Status.WriteFault → Rose (K.faults sink.old) (K.faults sink.new) }
    ensures write_fault_part { result ≡ Status.WriteFault
        → PartlyWrote (word_texts words.now.items) (S.left source.old) (S.left source.new) (K.held sink.old) (K.held sink.new) }

    ensures no_memory { result ≡ Status.NoMemory → K.held sink.new ≡ K.held sink.old }

    // Where nothing fails, a command on an accepted bundle is done, and so is each of the other commands, unless memory
    // runs out.
    ensures complete { ReadsBundle (word_texts words.now.items) → IsTold (S.left source.old) SomeAccepted
        → ¬ Rose (S.faults source.old) (S.faults source.new) → ¬ Rose (K.faults sink.old) (K.faults sink.new)
        → (result ≡ Status.Done) ⊎ (result ≡ Status.NoMemory) }
    ensures complete_alone { IsCommand (word_texts words.now.items) → ¬ ReadsBundle (word_texts words.now.items)
        → ¬ Rose (K.faults sink.old) (K.faults sink.new) → (result ≡ Status.Done) ⊎ (result ≡ Status.NoMemory) }
{
    *kept = None;
    match command_of(words) {
        None => refuse(sink, USAGE_LINE, Status::BadWords),
        Some(Command::OfBundle(command)) => run_on_bundle(alloc, command, source, sink, kept),
        Some(Command::Generate(number)) => summarize(alloc, number, sink, kept),
        Some(Command::GenerateBundle(number)) => write_made(sink, generated_bytes(alloc, number)),
        Some(Command::Help) => write_text(sink, help_text(alloc)),
    }
}

/// A law, which does nothing when it is called: the definitions give one text of a command and a bundle, but for the order of the
/// frames in a dump, which is free; one report before a dump; and one summary of a generated bundle's run.
pub fn one_output()
    ensures of_bundle { (command : BundleCommand) (bundle : Bundle) (text other : List ℕ) → command ≢ BundleCommand.ReplayDump
        → IsOutput command bundle text → IsOutput command bundle other → text ≡ other }
    ensures of_dump { (bundle : Bundle) (text other : List ℕ)
        (one : IsReportWithDump bundle text) (two : IsReportWithDump bundle other) → HaveSameRun bundle text other one two }
    ensures made { (number : ℕ) (text other : List ℕ) → IsSummary number text → IsSummary number other → text ≡ other }
{}

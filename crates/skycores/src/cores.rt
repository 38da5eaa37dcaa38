//! The top call.

ghost use Rattle.std.specs.Prelude.{◌≡◌, ◌<◌, ◌++◌, ◌↔◌, ◌⊎◌, IfOk, string_bytes};
ghost use Rattle.sb_port.specs.Port.{Rose, TookFirst, Appended};
ghost use Rattle.sb_load.specs.Loading.{IsLoadable};
ghost use Rattle.sb_input.specs.Told.{IsTold, WhereTold, PartlyAppended, WritesLine};
ghost use Rattle.sb_input.specs.Input.{input_limit, IsTooLong, SomeNoBundle, SomeNotLoadable, SomeAccepted};
ghost use Rattle.sb_input.specs.Lines.{read_fault_line, too_long_line};
ghost use Rattle.sb_words.specs.Words.{word_texts};
ghost use Rattle.skycores.specs.Words.{IsCommand, IsWithin, usage_line};
ghost use Rattle.sb_machine.specs.Dump.{DumpShows};
ghost use Rattle.skycores.specs.Text.{IsOutputFor, dump_where};
ghost use Rattle.skycores.specs.Output.{WroteOutput, WrotePart, Reported, PartlyReported, Wrote, PartlyWrote, RefusedBundle, RefusedLoad};

use crate::text::output_text;
use crate::words::{Run, command_of};
use sb_book::{Gate, history_by_threads};
use sb_input::{
    InputRefusal, READ_FAULT_LINE, Status, TOO_LONG_LINE, bundle_line, load_line, read_loaded,
    refuse, refuse_by,
};
use sb_load::Loaded;
use sb_machine::Machine;
use sb_port::{Sink, Source, write_all};
use std::alloc::{AllocError, Global};
use std::sync::Wait;
use std::thread::Threads;

/// The line where the words are no command.
const USAGE_LINE: &str = "usage: skycores run --steps N --block B [--dump]\n";

/// Writes the dump of a machine if it is asked for, as far as the sink takes it.
fn write_dump_where<K: Sink>(sink: &mut K, machine: &Machine, dump: bool) -> Status
    ensures done { result ≡ Status.Done
        → Appended (K.held sink.old) (K.held sink.new) (dump_where dump machine.now) }
    ensures write_fault { result ≡ Status.WriteFault → Rose (K.faults sink.old) (K.faults sink.new) }
    ensures write_fault_part { result ≡ Status.WriteFault
        → PartlyAppended (K.held sink.old) (K.held sink.new) (dump_where dump machine.now) }
    ensures kinds { (result ≡ Status.Done) ⊎ (result ≡ Status.WriteFault) }
{
    if !dump {
        return Status::Done;
    }
    match machine.write_dump(sink) {
        Ok(()) => Status::Done,
        Err(_) => Status::WriteFault,
    }
}

/// Writes a text, and behind it the dump of a machine if it is asked for, as far as the sink takes them.
fn write_output<K: Sink>(sink: &mut K, text: &str, machine: &Machine, dump: bool) -> Status
    ensures done { result ≡ Status.Done
        → Appended (K.held sink.old) (K.held sink.new) (text.now ++ dump_where dump machine.now) }
    ensures write_fault { result ≡ Status.WriteFault → Rose (K.faults sink.old) (K.faults sink.new) }
    ensures write_fault_part { result ≡ Status.WriteFault
        → PartlyAppended (K.held sink.old) (K.held sink.new) (text.now ++ dump_where dump machine.now) }
    ensures kinds { (result ≡ Status.Done) ⊎ (result ≡ Status.WriteFault) }
    ensures shows { DumpShows machine.now }
{
    machine.dump_shows();
    match write_all(sink, text.as_bytes()) {
        Ok(()) => write_dump_where(sink, machine, dump),
        Err(_) => Status::WriteFault,
    }
}

/// The output of a run of what was loaded, without its dump, and the machine that made the run.
fn output_of<R: Threads + Wait + Sync, G: Gate + Sync>(
    rt: &R,
    alloc: Global,
    run: Run,
    loaded: Loaded,
    gate: &G,
) -> Result<(String, Machine), AllocError>
    requires { IsWithin run }
    ensures { IfOk result (λ made. IsOutputFor loaded run (string_bytes made.0) made.1) }
{
    let history = history_by_threads(rt, alloc, loaded, run.steps, run.block, gate)?;
    output_text(alloc, history, &run)
}

/// Runs what was loaded, and writes its output as far as the sink takes it.
fn run_loaded<R: Threads + Wait + Sync, K: Sink, G: Gate + Sync>(
    rt: &R,
    alloc: Global,
    run: Run,
    loaded: Loaded,
    sink: &mut K,
    gate: &G,
) -> Status
    requires { IsWithin run }
    ensures done { result ≡ Status.Done → WroteOutput loaded run (K.held sink.old) (K.held sink.new) }
    ensures write_fault { result ≡ Status.WriteFault → Rose (K.faults sink.old) (K.faults sink.new) }
    ensures write_fault_part { result ≡ Status.WriteFault → WrotePart loaded run (K.held sink.old) (K.held sink.new) }
    ensures no_memory { result ≡ Status.NoMemory → K.held sink.new ≡ K.held sink.old }
    ensures kinds { (result ≡ Status.Done) ⊎ (result ≡ Status.WriteFault) ⊎ (result ≡ Status.NoMemory) }
{
    match output_of(rt, alloc, run, loaded, gate) {
        Ok((text, machine)) => write_output(sink, text.as_str(), &machine, run.dump),
        Err(AllocError) => Status::NoMemory,
    }
}

/// Runs the cores of the bundle that the source gives.
fn run_on_bundle<R: Threads + Wait + Sync, S: Source, K: Sink, G: Gate + Sync>(
    rt: &R,
    alloc: Global,
    run: Run,
    source: &mut S,
    sink: &mut K,
    gate: &G,
) -> Status
    requires { IsWithin run }
    ensures known { ¬ (result ≡ Status.BadWords) }
    ensures done { result ≡ Status.Done
        → Reported run (S.left source.old) (S.left source.new) (K.held sink.old) (K.held sink.new) }

    ensures read_fault { result ≡ Status.ReadFault → Rose (S.faults source.old) (S.faults source.new) }
    ensures read_fault_line { result ≡ Status.ReadFault
        → WritesLine (K.held sink.old) (K.held sink.new) (K.faults sink.old) (K.faults sink.new) read_fault_line }

    ensures too_long { result ≡ Status.TooLong → WhereTold (S.left source.old) IsTooLong }
    ensures taken { TookFirst (S.left source.old) (S.left source.new) (λ count.
        (result ≡ Status.TooLong) ↔ (input_limit < count)) }
    ensures long { IsTold (S.left source.old) IsTooLong
        → ¬ Rose (S.faults source.old) (S.faults source.new) → (result ≡ Status.TooLong) ⊎ (result ≡ Status.NoMemory) }
    ensures too_long_line { result ≡ Status.TooLong
        → WritesLine (K.held sink.old) (K.held sink.new) (K.faults sink.old) (K.faults sink.new) too_long_line }

    ensures bundle_refused { result ≡ Status.BundleRefused
        → RefusedBundle (S.left source.old) (S.left source.new) (K.held sink.old) (K.held sink.new)
        (K.faults sink.old) (K.faults sink.new) }
    ensures no_bundle { IsTold (S.left source.old) SomeNoBundle
        → ¬ Rose (S.faults source.old) (S.faults source.new) → (result ≡ Status.BundleRefused) ⊎ (result ≡ Status.NoMemory) }

    ensures load_refused { result ≡ Status.LoadRefused
        → RefusedLoad (S.left source.old) (S.left source.new) (K.held sink.old) (K.held sink.new)
        (K.faults sink.old) (K.faults sink.new) }
    ensures not_loadable { IsTold (S.left source.old) SomeNotLoadable
        → ¬ Rose (S.faults source.old) (S.faults source.new) → (result ≡ Status.LoadRefused) ⊎ (result ≡ Status.NoMemory) }

    ensures write_fault { result ≡ Status.WriteFault → Rose (K.faults sink.old) (K.faults sink.new) }
    ensures write_fault_part { result ≡ Status.WriteFault
        → PartlyReported run (S.left source.old) (S.left source.new) (K.held sink.old) (K.held sink.new) }

    ensures no_memory { result ≡ Status.NoMemory → K.held sink.new ≡ K.held sink.old }

    ensures complete { IsTold (S.left source.old) SomeAccepted
        → ¬ Rose (S.faults source.old) (S.faults source.new) → ¬ Rose (K.faults sink.old) (K.faults sink.new)
        → (result ≡ Status.Done) ⊎ (result ≡ Status.NoMemory) }
{
    let loaded = match read_loaded(alloc, source) {
        Ok(loaded) => loaded,
        Err(InputRefusal::ReadFault) => return refuse(sink, READ_FAULT_LINE, Status::ReadFault),
        Err(InputRefusal::TooLong) => return refuse(sink, TOO_LONG_LINE, Status::TooLong),
        Err(InputRefusal::Bundle(why)) => {
            return refuse_by(sink, bundle_line(alloc, why), Status::BundleRefused);
        }
        Err(InputRefusal::Load(why)) => {
            return refuse_by(sink, load_line(alloc, why), Status::LoadRefused);
        }
        Err(InputRefusal::Memory) => return Status::NoMemory,
    };
    run_loaded(rt, alloc, run, loaded, sink, gate)
}

/// Runs the cores of the bundle that the source gives, each on a thread of its own, and writes the journal of their steps,
/// whether every thread ended, the report of exactly that journal, and the dump of the machine if it is asked for.
///
/// No return is promised, nor which core steps when: what is promised holds where the call returns. A refusal keeps its status
/// where its line could not be written whole. Causes are tried in the order words, reading, bundle, loading, run, writing; once
/// the words are a command, `NoMemory` may come anywhere between. The gate is called by each worker before each of its turns.
pub fn cores<R: Threads + Wait + Sync, S: Source, K: Sink, G: Gate + Sync>(
    rt: &R,
    alloc: Global,
    words: &Vec<String>,
    source: &mut S,
    sink: &mut K,
    gate: &G,
) -> Status
    // The words are a command, an accepted bundle was read to the end of the source, and an output of it was appended: a
    // journal, its end word, the report that the plain machine gives for exactly that journal, in which no line is `idle`, and if
    // it was asked for a dump that shows the last state of that machine.
    ensures done { result ≡ Status.Done
        → Wrote (word_texts words.now.items) (S.left source.old) (S.left source.new) (K.held sink.old) (K.held sink.new) }

    // Where the words are no command, nothing is read.
    ensures bad_words { (result ≡ Status.BadWords) ↔ (¬ IsCommand (word_texts words.now.items)) }
    ensures bad_words_line { result ≡ Status.BadWords
        → WritesLine (K.held sink.old) (K.held sink.new) (K.faults sink.old) (K.faults sink.new) usage_line }
    ensures unread { result ≡ Status.BadWords → source.new ≡ source.old }

    ensures read_fault { result ≡ Status.ReadFault → Rose (S.faults source.old) (S.faults source.new) }
    ensures read_fault_line { result ≡ Status.ReadFault
        → WritesLine (K.held sink.old) (K.held sink.new) (K.faults sink.old) (K.faults sink.new) read_fault_line }

    // An input that is longer than the limit is refused as such, and no other input is: exactly where a byte past the limit
    // was taken.
    ensures too_long { result ≡ Status.TooLong → WhereTold (S.left source.old) IsTooLong }
    ensures taken { IsCommand (word_texts words.now.items) → TookFirst (S.left source.old) (S.left source.new) (λ count.
        (result ≡ Status.TooLong) ↔ (input_limit < count)) }
    ensures long { IsCommand (word_texts words.now.items) → IsTold (S.left source.old) IsTooLong
        → ¬ Rose (S.faults source.old) (S.faults source.new) → (result ≡ Status.TooLong) ⊎ (result ≡ Status.NoMemory) }
    ensures too_long_line { result ≡ Status.TooLong
        → WritesLine (K.held sink.old) (K.held sink.new) (K.faults sink.old) (K.faults sink.new) too_long_line }

    // An input that is no bundle is refused as such, and no other input is.
    ensures bundle_refused { result ≡ Status.BundleRefused
        → RefusedBundle (S.left source.old) (S.left source.new) (K.held sink.old) (K.held sink.new)
        (K.faults sink.old) (K.faults sink.new) }
    ensures no_bundle { IsCommand (word_texts words.now.items) → IsTold (S.left source.old) SomeNoBundle
        → ¬ Rose (S.faults source.old) (S.faults source.new) → (result ≡ Status.BundleRefused) ⊎ (result ≡ Status.NoMemory) }

    // A bundle that the loader refuses is refused as such, and no other input is.
    ensures load_refused { result ≡ Status.LoadRefused
        → RefusedLoad (S.left source.old) (S.left source.new) (K.held sink.old) (K.held sink.new)
        (K.faults sink.old) (K.faults sink.new) }
    ensures not_loadable { IsCommand (word_texts words.now.items) → IsTold (S.left source.old) SomeNotLoadable
        → ¬ Rose (S.faults source.old) (S.faults source.new) → (result ≡ Status.LoadRefused) ⊎ (result ≡ Status.NoMemory) }

    ensures write_fault { result ≡ Status.WriteFault → Rose (K.faults sink.old) (K.faults sink.new) }
    ensures write_fault_part { result ≡ Status.WriteFault
        → PartlyWrote (word_texts words.now.items) (S.left source.old) (S.left source.new) (K.held sink.old) (K.held sink.new) }

    ensures no_memory { result ≡ Status.NoMemory → K.held sink.new ≡ K.held sink.old }

    // Where nothing fails, a command on an accepted bundle that ends is done, unless memory runs out.
    ensures complete { IsCommand (word_texts words.now.items) → IsTold (S.left source.old) SomeAccepted
        → ¬ Rose (S.faults source.old) (S.faults source.new) → ¬ Rose (K.faults sink.old) (K.faults sink.new)
        → (result ≡ Status.Done) ⊎ (result ≡ Status.NoMemory) }
{
    match command_of(words) {
        None => refuse(sink, USAGE_LINE, Status::BadWords),
        Some(run) => run_on_bundle(rt, alloc, run, source, sink, gate),
    }
}

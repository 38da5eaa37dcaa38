//! What goes to the sink, and the status with which that ends.

ghost use Rattle.std.specs.Prelude.{◌≡◌, ◌++◌, ◌⊎◌, None, IfSome, MatchResult, string_bytes};
ghost use Rattle.sb_generator.specs.Generator.{generated};
ghost use Rattle.sb_load.specs.Loading.{IsLoadable};
ghost use Rattle.sb_machine.specs.Dump.{machine_dump, DumpShows};
ghost use Rattle.skybridge.specs.Output.{IsReport, IsReportWithDump, IsSummary};
ghost use Rattle.skybridge.specs.Kept.{HasRunOf, HasDumpOf};
ghost use Rattle.skybridge.specs.Written.{Writes, Leaves};

use crate::generated::summary;
use crate::machine_run::machine_report;
use crate::plain_run::plain_report;
use sb_input::Status;
use sb_load::Loaded;
use sb_machine::Machine;
use sb_port::{Sink, write_all};
use std::alloc::{AllocError, Global};

// ---- texts

/// Writes bytes, as far as the sink takes them.
fn write_bytes<K: Sink>(sink: &mut K, bytes: &[u8]) -> Status
    ensures kinds { (result ≡ Status.Done) ⊎ (result ≡ Status.WriteFault) }
    ensures written { Writes (λ text. text ≡ bytes.now) result (K.held sink.old) (K.held sink.new)
        (K.faults sink.old) (K.faults sink.new) }
{
    match write_all(sink, bytes) {
        Ok(()) => Status::Done,
        Err(_) => Status::WriteFault,
    }
}

/// Writes the bytes that were made, where there was memory for them.
pub fn write_made<K: Sink>(sink: &mut K, made: Result<Vec<u8>, AllocError>) -> Status
    ensures { MatchResult made
        (λ bytes. Writes (λ text. text ≡ bytes.items) result (K.held sink.old) (K.held sink.new)
        (K.faults sink.old) (K.faults sink.new))
        (λ _. (result ≡ Status.NoMemory) × (K.held sink.new ≡ K.held sink.old)) }
{
    match made {
        Ok(bytes) => write_bytes(sink, &bytes),
        Err(AllocError) => Status::NoMemory,
    }
}

/// Writes the text that was made, where there was memory for it.
pub fn write_text<K: Sink>(sink: &mut K, made: Result<String, AllocError>) -> Status
    ensures { MatchResult made
        (λ made. Writes (λ text. text ≡ string_bytes made) result (K.held sink.old) (K.held sink.new)
        (K.faults sink.old) (K.faults sink.new))
        (λ _. (result ≡ Status.NoMemory) × (K.held sink.new ≡ K.held sink.old)) }
{
    match made {
        Ok(text) => write_bytes(sink, text.as_bytes()),
        Err(AllocError) => Status::NoMemory,
    }
}

// ---- runs

/// Writes the report of the plain machine's run.
pub fn write_plain<K: Sink>(alloc: Global, loaded: &Loaded, sink: &mut K) -> Status
    requires { IsLoadable loaded.now }
    ensures { Writes (IsReport loaded.now.bundle) result (K.held sink.old) (K.held sink.new)
        (K.faults sink.old) (K.faults sink.new) }
{
    write_text(sink, plain_report(alloc, loaded))
}

/// Writes a report, and the dump of a machine behind it.
fn write_with_dump<K: Sink>(sink: &mut K, report: &str, machine: &Machine) -> Status
    ensures kinds { (result ≡ Status.Done) ⊎ (result ≡ Status.WriteFault) }
    ensures written { Writes (λ text. text ≡ report.now ++ machine_dump machine.now) result (K.held sink.old) (K.held sink.new)
        (K.faults sink.old) (K.faults sink.new) }
    ensures shows { DumpShows machine.now }
{
    machine.dump_shows();
    match write_all(sink, report.as_bytes()) {
        Ok(()) => match machine.write_dump(sink) {
            Ok(()) => Status::Done,
            Err(_) => Status::WriteFault,
        },
        Err(_) => Status::WriteFault,
    }
}

/// Writes the report of the machine's run, and leaves the machine.
pub fn replay<K: Sink>(
    alloc: Global,
    loaded: &Loaded,
    sink: &mut K,
    kept: &mut Option<Machine>,
) -> Status
    requires loadable { IsLoadable loaded.now }
    requires none { kept.old ≡ None }
    ensures written { Writes (IsReport loaded.now.bundle) result (K.held sink.old) (K.held sink.new)
        (K.faults sink.old) (K.faults sink.new) }
    ensures left { Leaves (λ machine. HasRunOf machine loaded.now.bundle) result kept.new }
{
    let (report, machine) = match machine_report(alloc, loaded) {
        Ok(run) => run,
        Err(AllocError) => return Status::NoMemory,
    };
    let status = write_bytes(sink, report.as_bytes());
    *kept = Some(machine);
    status
}

/// Writes the report of the machine's run and the dump of the machine, and leaves the machine.
pub fn replay_with_dump<K: Sink>(
    alloc: Global,
    loaded: &Loaded,
    sink: &mut K,
    kept: &mut Option<Machine>,
) -> Status
    requires loadable { IsLoadable loaded.now }
    requires none { kept.old ≡ None }
    ensures written { Writes (IsReportWithDump loaded.now.bundle) result (K.held sink.old) (K.held sink.new)
        (K.faults sink.old) (K.faults sink.new) }
    ensures left { Leaves (λ machine. HasRunOf machine loaded.now.bundle) result kept.new }
    ensures dumped { result ≡ Status.Done
        → IfSome kept.new (λ machine. HasDumpOf machine loaded.now.bundle (K.held sink.old) (K.held sink.new)) }
{
    let (report, machine) = match machine_report(alloc, loaded) {
        Ok(run) => run,
        Err(AllocError) => return Status::NoMemory,
    };
    let status = write_with_dump(sink, report.as_str(), &machine);
    *kept = Some(machine);
    status
}

/// Writes the summary of a generated bundle's run, and leaves the machine.
pub fn summarize<K: Sink>(
    alloc: Global,
    number: u64,
    sink: &mut K,
    kept: &mut Option<Machine>,
) -> Status
    requires none { kept.old ≡ None }
    ensures written { Writes (IsSummary number) result (K.held sink.old) (K.held sink.new)
        (K.faults sink.old) (K.faults sink.new) }
    ensures left { Leaves (λ machine. HasRunOf machine (generated number)) result kept.new }
{
    let (text, machine) = match summary(alloc, number) {
        Ok(run) => run,
        Err(AllocError) => return Status::NoMemory,
    };
    let status = write_bytes(sink, text.as_bytes());
    *kept = Some(machine);
    status
}

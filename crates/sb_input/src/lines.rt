//! The lines of the refusals of an input.

ghost use Rattle.std.specs.Prelude.{◌≡◌, ◌≤◌, IfOk, MatchResult, string_bytes};
ghost use Rattle.sb_input.specs.Told.{WritesLine};
ghost use Rattle.sb_input.specs.Lines.{bundle_line, load_line};

use crate::status::Status;
use sb_bundle::BundleRefusal;
use sb_load::LoadRefusal;
use sb_port::{Sink, write_all};
use std::alloc::{AllocError, Global};

/// The line where the source failed.
pub const READ_FAULT_LINE: &str = "read fault\n";

/// The line where the input is longer than the limit.
pub const TOO_LONG_LINE: &str = "input too long\n";

/// The line of a bundle's refusal: its name and the offset of the field.
pub fn bundle_line(alloc: Global, refusal: BundleRefusal) -> Result<String, AllocError>
    ensures { IfOk result (λ line. string_bytes line ≡ bundle_line refusal) }
{
    match refusal {
        BundleRefusal::Short { at } => format!(in alloc; "bundle Short {at}\n"),
        BundleRefusal::Magic { at } => format!(in alloc; "bundle Magic {at}\n"),
        BundleRefusal::Version { at } => format!(in alloc; "bundle Version {at}\n"),
        BundleRefusal::Count { at } => format!(in alloc; "bundle Count {at}\n"),
        BundleRefusal::Range { at } => format!(in alloc; "bundle Range {at}\n"),
        BundleRefusal::Trailing { at } => format!(in alloc; "bundle Trailing {at}\n"),
        BundleRefusal::Memory => Ok(String::new(alloc)),
    }
}

/// The line of a loader's refusal.
pub fn load_line(alloc: Global, refusal: LoadRefusal) -> Result<String, AllocError>
    ensures { IfOk result (λ line. string_bytes line ≡ load_line refusal) }
{
    format!(in alloc; "{refusal}\n")
}

/// Writes a line, as far as the sink takes it.
pub fn write_line<K: Sink>(sink: &mut K, line: &str)
    ensures written { WritesLine (K.held sink.old) (K.held sink.new) (K.faults sink.old) (K.faults sink.new) line.now }
    ensures later { K.faults sink.old ≤ K.faults sink.new }
{
    let _ = write_all(sink, line.as_bytes());
}

/// Writes the line of a refusal, as far as the sink takes it. The status is the refusal's.
pub fn refuse<K: Sink>(sink: &mut K, line: &str, status: Status) -> Status
    ensures same { result ≡ status }
    ensures written { WritesLine (K.held sink.old) (K.held sink.new) (K.faults sink.old) (K.faults sink.new) line.now }
    ensures later { K.faults sink.old ≤ K.faults sink.new }
{
    write_line(sink, line);
    status
}

/// Writes the line of a refusal with this status, if there is memory for the line.
pub fn refuse_by<K: Sink>(sink: &mut K, line: Result<String, AllocError>, status: Status) -> Status
    ensures written { MatchResult line
        (λ text. (result ≡ status)
        × WritesLine (K.held sink.old) (K.held sink.new) (K.faults sink.old) (K.faults sink.new) (string_bytes text))
        (λ _. (result ≡ Status.NoMemory) × (K.held sink.new ≡ K.held sink.old)) }
    ensures later { K.faults sink.old ≤ K.faults sink.new }
{
    match line {
        Ok(text) => refuse(sink, text.as_str(), status),
        Err(AllocError) => Status::NoMemory,
    }
}

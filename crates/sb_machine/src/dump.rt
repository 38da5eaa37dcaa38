//! The dump of a machine: what goes to the sink.

ghost use Rattle.std.specs.Prelude.{◌≡◌, ◌+◌, ◌*◌, ◌^◌, ◌<◌, ◌≤◌, ◌==◌, IfOk, IfErr, OnOk, OnErr, length, not, take};
ghost use Rattle.std.specs.List.{list_any};
ghost use Rattle.sb_abi.specs.declared.space.TheConstants.{WINDOW_THREADS};
ghost use Rattle.sb_memory.specs.Physical.{HasSize, frame_count};
ghost use Rattle.sb_port.specs.Port.{Appended, Rose};
ghost use Rattle.sb_shows.specs.Dump.{core_line, bytes_line};
ghost use Rattle.sb_machine.specs.Dump.{machine_dump, DumpShows};
ghost use Rattle.sb_machine.specs.Machine.{words_of};
ghost use Rattle.sb_machine.specs.Writing.{Wrote, frame_part, texts};

use crate::dump_lines::{bytes_line, core_line, count_line, frame_line};
use crate::frame::frame_bytes;
use crate::machine::Machine;
use crate::parts::Parts;
use sb_memory::{Frame, Memory, PAGE_SIZE, Phys};
use sb_port::{Sink, WriteFault, write_all};

/// How many bytes a line of a frame shows.
const LINE_BYTES: usize = 64;

// `room` keeps the count of written bytes from passing what a word holds: no dump has 2^60 bytes.

/// Appends bytes behind so many written ones, and answers how many are written now.
fn put<K: Sink>(sink: &mut K, written: usize, bytes: &[u8]) -> Result<usize, WriteFault>
    requires few { length bytes.now ≤ 256 }
    requires room { written ≤ 2 ^ 62 }
    ensures wrote { Wrote (K.held sink.old) (K.held sink.new) (K.faults sink.old) (K.faults sink.new) written bytes.now result }
    ensures few { IfOk result (λ total. total ≤ written + 256) }
{
    match write_all(sink, bytes) {
        Ok(()) => Ok(written + bytes.len()),
        Err(fault) => Err(WriteFault {
            written: written + fault.written,
        }),
    }
}

/// Writes the line of each core.
fn write_cores<K: Sink>(sink: &mut K, first: usize, parts: &Parts) -> Result<usize, WriteFault>
    requires few { length parts.now.cores ≤ WINDOW_THREADS }
    requires room { first ≤ 2 ^ 16 }
    ensures wrote { Wrote (K.held sink.old) (K.held sink.new) (K.faults sink.old) (K.faults sink.new) first
        (texts (core_line (words_of parts.now)) (length parts.now.cores)) result }
    ensures few { IfOk result (λ total. total ≤ first + 256 * WINDOW_THREADS) }
{
    let mut written = first;
    for number in 0..parts.cores.len() as u8 {
        let line = core_line(number, &parts.core(number).state);
        written = put(sink, written, line.bytes())?;
    }
    Ok(written)
}

/// Writes the lines of a frame's bytes.
fn write_bytes<K: Sink>(sink: &mut K, first: usize, bytes: &[u8]) -> Result<usize, WriteFault>
    requires size { length bytes.now ≡ PAGE_SIZE }
    requires room { first ≤ 2 ^ 61 }
    ensures wrote { Wrote (K.held sink.old) (K.held sink.new) (K.faults sink.old) (K.faults sink.new) first
        (texts (bytes_line bytes.now) 64) result }
    ensures few { IfOk result (λ total. total ≤ first + 256 * 64) }
{
    let mut written = first;
    for number in 0..64 {
        let start = LINE_BYTES * number;
        let line = bytes_line(&bytes[start..start + LINE_BYTES]);
        written = put(sink, written, line.bytes())?;
    }
    Ok(written)
}

/// Whether there is a byte other than 0.
fn has_nonzero_byte(bytes: &[u8]) -> bool
    ensures { result ≡ list_any (λ byte. not (byte == 0)) bytes.now }
{
    bytes.iter().any(|byte| *byte != 0)
}

/// Writes a frame where it has a byte other than 0, and else nothing.
fn write_frame<K: Sink>(
    sink: &mut K,
    first: usize,
    memory: &Memory,
    frame: Frame,
) -> Result<usize, WriteFault>
    requires size { HasSize memory.now }
    requires there { frame.0 < frame_count memory.now }
    requires room { first ≤ 2 ^ 60 }
    ensures wrote { Wrote (K.held sink.old) (K.held sink.new) (K.faults sink.old) (K.faults sink.new) first
        (frame_part memory.now frame.0) result }
    ensures few { IfOk result (λ total. total ≤ first + 256 * 65) }
{
    let bytes = frame_bytes(memory, frame);
    if !has_nonzero_byte(bytes) {
        return Ok(first);
    }
    let line = frame_line(frame);
    let written = put(sink, first, line.bytes())?;
    write_bytes(sink, written, bytes)
}

/// Writes each frame that has a byte other than 0.
fn write_frames<K: Sink>(sink: &mut K, first: usize, memory: &Memory) -> Result<usize, WriteFault>
    requires room { first ≤ 2 ^ 32 }
    ensures wrote { Wrote (K.held sink.old) (K.held sink.new) (K.faults sink.old) (K.faults sink.new) first
        (texts (frame_part memory.now) (frame_count memory.now)) result }
    ensures few { IfOk result (λ total. total ≤ 2 ^ 60) }
{
    let mut written = first;
    for number in 0..memory.frames() {
        written = write_frame(sink, written, memory, Frame(number))?;
    }
    Ok(written)
}

/// Writes the dump of a machine of these parts.
fn write_parts<K: Sink>(sink: &mut K, parts: &Parts) -> Result<usize, WriteFault>
    requires few { length parts.now.cores ≤ WINDOW_THREADS }
    ensures { Wrote (K.held sink.old) (K.held sink.new) (K.faults sink.old) (K.faults sink.new) 0
        (machine_dump parts.now) result }
{
    let line = count_line(parts.memory.frames());
    let written = put(sink, 0, line.bytes())?;
    let written = write_cores(sink, written, parts)?;
    let written = write_frames(sink, written, &parts.memory)?;
    put(sink, written, b"end\n")
}

/// The dump of these parts shows each state for which they stand, since a memory has all its frames.
fn dump_shows(parts: &Parts)
    ensures { DumpShows parts.now }
{
    let _ = parts.memory.frames();
}

impl Machine {
    /// A law, which does nothing when it is called: what `write_dump` writes shows each state for which the machine stands.
    pub fn dump_shows(&self)
        ensures { DumpShows self.now }
    {
        dump_shows(&self.parts);
    }

    /// Writes the dump: the number of frames, the words of each core, and each frame that has a byte other than 0. It takes no
    /// memory. What it writes shows each state for which the machine stands.
    ///
    /// # Errors
    ///
    /// `WriteFault` only where the sink's count of faults rose. Exactly the first `written` bytes of the dump were appended.
    pub fn write_dump<K: Sink>(&self, sink: &mut K) -> Result<(), WriteFault>
        ensures ok { OnOk result (Appended (K.held sink.old) (K.held sink.new) (machine_dump self.now)) }
        ensures err { IfErr result (λ fault.
            Appended (K.held sink.old) (K.held sink.new) (take fault.written (machine_dump self.now))) }
        ensures part { IfErr result (λ fault. fault.written < length (machine_dump self.now)) }
        ensures fault { OnErr result (Rose (K.faults sink.old) (K.faults sink.new)) }
        ensures later { K.faults sink.old ≤ K.faults sink.new }
        ensures shows { DumpShows self.now }
    {
        dump_shows(&self.parts);
        write_parts(sink, &self.parts)?;
        Ok(())
    }
}

//! Std's readers and writers as sources and sinks.

ghost use Rattle.std.specs.Prelude.{◌≡◌, ◌<◌, length, IfOk};
ghost use Rattle.std.specs.Io.{ReadsAtMost, WritesAtMost};
ghost use Rattle.std.specs.Io.KnownBytes.{ReadConsumes, WriteAppends};
ghost use Rattle.sb_port.specs.Port.{HasCause, counted};
ghost use Rattle.sb_port.specs.Adapters.{PassesOn, PassesOnSome, counted_write};

use crate::{Failed, Sink, Source};
use std::io::{self, Read, Write};

/// What a source answers whose reader answers so. An error is one fault; any other answer stands, and leaves the count.
fn read_answer(answer: io::Result<usize>, faults: &mut u64) -> Result<usize, Failed>
    ensures same { PassesOn answer result }
    ensures counted { faults.new ≡ counted faults.old answer }
    ensures cause { HasCause faults.old faults.new result }
    ensures result { faults.new ≡ counted faults.old result }
{
    match answer {
        Ok(count) => Ok(count),
        Err(_) => {
            *faults = faults.saturating_add(1);
            Err(Failed)
        }
    }
}

/// What a sink answers whose writer answers so. An error is one fault, and so is a write of no byte; any other answer
/// stands, and leaves the count.
fn write_answer(answer: io::Result<usize>, faults: &mut u64) -> Result<usize, Failed>
    ensures same { PassesOnSome answer result }
    ensures counted { faults.new ≡ counted_write faults.old answer }
    ensures cause { HasCause faults.old faults.new result }
    ensures result { faults.new ≡ counted faults.old result }
{
    match answer {
        Ok(count) if count > 0 => Ok(count),
        _ => {
            *faults = faults.saturating_add(1);
            Err(Failed)
        }
    }
}

/// A source over a reader. It tells the bytes that the reader tells, and each error of the reader is a fault.
#[derive(Debug, Drop)]
pub struct ReadSource<R> {
    reader: R,
    faults: u64,
}

impl<R: Read> ReadSource<R> {
    ghost use Rattle.sb_port.specs.Adapters.{reader_of, read_faults};

    /// A source of what the reader has left.
    pub fn new(reader: R) -> ReadSource<R>
        ensures reader { reader_of result ≡ reader }
        ensures faults { read_faults result ≡ 0 }
    {
        ReadSource { reader, faults: 0 }
    }
}

impl<R: Read> Source for ReadSource<R> {
    ghost use Rattle.sb_port.specs.Adapters.{reader_of, read_faults};

    ghost left = { λ source. R.remaining (reader_of source) };

    ghost faults = { read_faults };

    fn take(&mut self, into: &mut [u8]) -> Result<usize, Failed>
        ensures bound { ReadsAtMost result into.new }
        ensures bytes { ReadConsumes (R.remaining (reader_of self.old)) (R.remaining (reader_of self.new)) result into.new }
        ensures cause { HasCause (read_faults self.old) (read_faults self.new) result }
        ensures counted { read_faults self.new ≡ counted (read_faults self.old) result }
    {
        read_answer(self.reader.read(into), &mut self.faults)
    }
}

/// A sink over a writer. It tells the bytes that the writer tells, and each error of the writer is a fault, as is a
/// write that takes no byte.
#[derive(Debug, Drop)]
pub struct WriteSink<W> {
    writer: W,
    faults: u64,
}

impl<W: Write> WriteSink<W> {
    ghost use Rattle.sb_port.specs.Adapters.{writer_of, write_faults};

    /// A sink that appends to what the writer holds.
    pub fn new(writer: W) -> WriteSink<W>
        ensures writer { writer_of result ≡ writer }
        ensures faults { write_faults result ≡ 0 }
    {
        WriteSink { writer, faults: 0 }
    }
}

impl<W: Write> Sink for WriteSink<W> {
    ghost use Rattle.sb_port.specs.Adapters.{writer_of, write_faults};

    ghost held = { λ sink. W.contents (writer_of sink) };

    ghost faults = { write_faults };

    fn put(&mut self, bytes: &[u8]) -> Result<usize, Failed>
        ensures some { IfOk result (λ count. 0 < count) }
        ensures bound { WritesAtMost result bytes.now }
        ensures bytes { WriteAppends (W.contents (writer_of self.old)) (W.contents (writer_of self.new)) result bytes.now }
        ensures cause { HasCause (write_faults self.old) (write_faults self.new) result }
        ensures counted { write_faults self.new ≡ counted (write_faults self.old) result }
    {
        write_answer(self.writer.write(bytes), &mut self.faults)
    }
}

//! Reading a source to its end, and writing all of a text.

ghost use Rattle.std.specs.Prelude.{◌≡◌, ◌≤◌, ◌<◌, ◌↔◌, [], length, take, IfOk, IfErr, OnOk, OnErr, IsErrOf};
ghost use Rattle.sb_port.specs.Port.{Rose, ReadWhole, HasMore, TookFirst, Appended};
ghost use Rattle.sb_port.specs.declared.transfer.ReadAll.TheVariants.{ReadFault, TooLong, Memory};

use crate::{Failed, Sink, Source};
use std::alloc::{AllocError, Global};
use thiserror::Error;

/// How many bytes are asked for at a time.
const CHUNK: usize = 4096;

/// Why the input was not read to its end.
#[derive(Clone, Copy, Debug, PartialEq, Eq, Error)]
pub enum ReadAll {
    /// The source failed, and counted it.
    #[error("the source failed")]
    ReadFault,
    /// The input has more bytes than the limit.
    #[error("the input is longer than the limit")]
    TooLong,
    /// There is no memory for the bytes.
    #[error("out of memory")]
    Memory,
}

impl From<AllocError> for ReadAll {
    ghost from_gives = { λ _ e. e ≡ Memory };

    fn from(_: AllocError) -> Self {
        ReadAll::Memory
    }
}

impl From<Failed> for ReadAll {
    ghost from_gives = { λ _ e. e ≡ ReadFault };

    fn from(_: Failed) -> Self {
        ReadAll::ReadFault
    }
}

/// Reads to the end of the input, which may have at most `limit` bytes. Each call of the source takes at least one byte
/// or is the last.
///
/// # Errors
///
/// `ReadFault` only where the source's count of faults rose, `TooLong` exactly where a byte after the first `limit` was
/// taken, `Memory` for want of memory. The bytes that were taken before an error are lost.
pub fn read_all<S: Source>(alloc: Global, source: &mut S, limit: usize) -> Result<Vec<u8>, ReadAll>
    ensures read { IfOk result (λ bytes. ReadWhole (S.left source.old) (S.left source.new) bytes.items) }
    ensures within { IfOk result (λ bytes. length bytes.items ≤ limit) }

    // The input is too long exactly where more than `limit` bytes of it were taken.
    ensures too_long { IsErrOf result ReadAll.TooLong → HasMore (S.left source.old) limit }
    ensures taken { TookFirst (S.left source.old) (S.left source.new) (λ count.
        IsErrOf result ReadAll.TooLong ↔ (limit < count)) }

    ensures fault { IsErrOf result ReadAll.ReadFault → Rose (S.faults source.old) (S.faults source.new) }
    ensures later { S.faults source.old ≤ S.faults source.new }
{
    let mut bytes = Vec::new(alloc);
    let mut chunk = [0; CHUNK];
    loop {
        let count = source.take(&mut chunk)?;
        if count == 0 {
            return Ok(bytes);
        }
        if count > limit - bytes.len() {
            return Err(ReadAll::TooLong);
        }
        bytes.extend_from_slice(&chunk[..count])?;
    }
}

/// The sink failed, and counted it, before all the bytes were written.
#[derive(Clone, Copy, Debug, PartialEq, Eq, Error)]
#[error("the sink failed after {written} bytes")]
pub struct WriteFault {
    /// How many of the bytes were appended.
    pub written: usize,
}

/// Appends all the bytes. It takes no memory, and calls the sink only while bytes are left to write.
///
/// # Errors
///
/// `WriteFault` only where the sink's count of faults rose. Exactly its first `written` bytes were appended.
pub fn write_all<K: Sink>(sink: &mut K, bytes: &[u8]) -> Result<(), WriteFault>
    ensures ok { OnOk result (Appended (K.held sink.old) (K.held sink.new) bytes.now) }
    ensures err { IfErr result (λ fault. Appended (K.held sink.old) (K.held sink.new) (take fault.written bytes.now)) }
    ensures part { IfErr result (λ fault. fault.written < length bytes.now) }
    ensures untouched { bytes.now ≡ [] → sink.new ≡ sink.old }
    ensures fault { OnErr result (Rose (K.faults sink.old) (K.faults sink.new)) }
    ensures later { K.faults sink.old ≤ K.faults sink.new }
{
    let mut written = 0;
    while written < bytes.len() {
        match sink.put(&bytes[written..]) {
            Ok(count) => written += count,
            Err(Failed) => return Err(WriteFault { written }),
        }
    }
    Ok(())
}

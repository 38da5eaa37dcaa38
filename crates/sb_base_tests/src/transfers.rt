//! Transfers over a source and a sink in memory: whole, or refused where a call fails.

ghost use Rattle.std.specs.Prelude.{None};

use crate::same::assert_same;
use sb_port::{Failed, MemorySink, MemorySource, ReadAll, Source, WriteFault, read_all, write_all};
use std::alloc::{AllocError, Global};
use std::test::Fail;

/// Calls are counted from 1.
const NO_CALL: u64 = 0;

/// Names, bytes a call, the call that fails, the limit, and why the bridge is not read whole.
#[rattlefmt::skip]
const READS: [(&str, usize, u64, usize, Option<ReadAll>); 9] = [
    ("one byte a call", 1, NO_CALL, 6, None),
    ("a call could give more", 16, NO_CALL, 6, None),
    ("a limit above the length", 4, NO_CALL, 7, None),
    ("one byte past the limit", 4, NO_CALL, 5, Some(ReadAll::TooLong)),
    ("nothing is permitted", 4, NO_CALL, 0, Some(ReadAll::TooLong)),
    ("the first call fails", 4, 1, 6, Some(ReadAll::ReadFault)),
    ("a call in mid-stream fails", 2, 2, 6, Some(ReadAll::ReadFault)),
    ("the call at the end fails", 1, 7, 6, Some(ReadAll::ReadFault)),
    ("a call after the end would fail", 1, 8, 6, None),
];

/// What reading "bridge" answers, at most so many bytes a call, where a call fails.
fn reading(
    alloc: Global,
    per_call: usize,
    fails: u64,
    limit: usize,
) -> Result<Result<Vec<u8>, ReadAll>, AllocError> {
    let bytes = Vec::from_slice(alloc, b"bridge")?;
    let mut source = MemorySource::new(bytes, per_call.max(1), vec![in alloc; fails]?);
    Ok(read_all(alloc, &mut source, limit))
}

#[test]
fn a_source_in_memory_is_read_whole_or_refused(rt: HostRuntime) -> Result<(), Fail> {
    let text = b"bridge".as_slice();
    for &(name, per_call, fails, limit, refused) in &READS {
        match reading(rt.alloc(), per_call, fails, limit)? {
            Ok(bytes) => {
                assert_same(&rt, name, &bytes.as_slice(), &text);
                assert_same(&rt, name, &None, &refused);
            }
            Err(error) => assert_same(&rt, name, &Some(error), &refused),
        }
    }
    Ok(())
}

/// Names, texts, the room, bytes a call, the call that fails, and how many bytes were written where not all were.
#[rattlefmt::skip]
const WRITES: [(&str, &str, usize, usize, u64, Option<usize>); 8] = [
    ("one byte a call", "bridge", 6, 1, NO_CALL, None),
    ("a call could take more", "bridge", 6, 16, NO_CALL, None),
    ("the first call fails", "bridge", 6, 4, 1, Some(0)),
    ("a call in mid-stream fails", "bridge", 6, 2, 3, Some(4)),
    ("a call after the last would fail", "bridge", 6, 2, 4, None),
    ("room for all but one byte", "bridge", 5, 2, NO_CALL, Some(5)),
    ("no room", "bridge", 0, 2, NO_CALL, Some(0)),
    ("nothing to write makes no call", "", 0, 2, 1, None),
];

/// What a sink holds after a text was written to it, at most so many bytes a call, where a call fails, and the fault.
fn writing(
    alloc: Global,
    text: &str,
    capacity: usize,
    per_call: usize,
    fails: u64,
) -> Result<(Vec<u8>, Option<WriteFault>), AllocError> {
    let mut sink = MemorySink::new(alloc, capacity, per_call.max(1), vec![in alloc; fails]?)?;
    let fault = write_all(&mut sink, text.as_bytes()).err();
    Ok((Vec::from_slice(alloc, sink.held())?, fault))
}

#[test]
fn a_sink_in_memory_takes_all_or_a_prefix(rt: HostRuntime) -> Result<(), Fail> {
    for &(name, text, capacity, per_call, fails, written) in &WRITES {
        let (held, fault) = writing(rt.alloc(), text, capacity, per_call, fails)?;
        assert_same(&rt, name, &fault.map(|fault| fault.written), &written);
        let prefix = text.as_bytes().get(..written.unwrap_or(text.len()));
        assert_same(&rt, name, &Some(held.as_slice()), &prefix);
    }
    Ok(())
}

/// A source of one byte a call, which has two, and counts how often it is asked.
#[derive(Drop)]
struct Counting {
    calls: u8,
}

impl Source for Counting {
    ghost left = { λ source. None };

    ghost faults = { λ source. 0 };

    fn take(&mut self, into: &mut [u8]) -> Result<usize, Failed> {
        self.calls = self.calls.saturating_add(1);
        match into.first_mut() {
            Some(place) if self.calls <= 2 => {
                *place = self.calls;
                Ok(1)
            }
            _ => Ok(0),
        }
    }
}

/// What reading it answers, and how often it was asked.
fn asked_reading(alloc: Global, limit: usize) -> (Result<Vec<u8>, ReadAll>, u8) {
    let mut source = Counting { calls: 0 };
    let answer = read_all(alloc, &mut source, limit);
    (answer, source.calls)
}

#[test]
fn nothing_is_asked_for_after_the_end(rt: HostRuntime) -> Result<(), Fail> {
    for limit in [2, 3, 5000] {
        let (answer, calls) = asked_reading(rt.alloc(), limit);
        assert_same(&rt, "bytes", &answer?.as_slice(), &[1, 2].as_slice());
        assert_same(&rt, "calls", &calls, &3);
    }
    Ok(())
}

#[test]
fn nothing_is_asked_for_past_the_limit(rt: HostRuntime) {
    for (limit, calls) in [(0, 1), (1, 2)] {
        let (answer, asked) = asked_reading(rt.alloc(), limit);
        assert_same(&rt, "answer", &answer.err(), &Some(ReadAll::TooLong));
        assert_same(&rt, "calls", &asked, &calls);
    }
}

#[rattlefmt::skip]
const READ_TEXTS: [(ReadAll, &str); 3] = [
    (ReadAll::ReadFault, "the source failed"),
    (ReadAll::TooLong, "the input is longer than the limit"),
    (ReadAll::Memory, "out of memory"),
];

#[test]
fn faults_say_what_happened(rt: HostRuntime) -> Result<(), Fail> {
    let alloc = rt.alloc();
    for (refusal, text) in &READ_TEXTS {
        assert_same(&rt, "", &format!(in alloc; "{refusal}")?.as_str(), text);
    }
    let others = format!(in alloc; "{}; {}", WriteFault { written: 32 }, Failed)?;
    assert_same(
        &rt,
        "",
        &others.as_str(),
        &"the sink failed after 32 bytes; the device failed",
    );
    Ok(())
}

//! Runs of the top call over a source and a sink in memory, with gates that hold workers.

ghost use Rattle.std.specs.Prelude.{◌<◌, ◌^◌, length};

use crate::{Status, cores};
use sb_book::{Gate, OpenGate};
use sb_port::{MemorySink, MemorySource};
use std::alloc::Global;
use std::sync::Wait;
use std::sync::atomic::{AtomicU64, Ordering};
use std::test::Fail;
use std::thread::Threads;

/// Prints 7 and ends with status 7, in five instructions.
const FIVE: [u8; 16] = [
    0xBF, 7, 0, 0, 0, 0xB8, 1, 0, 0, 0, 0x0F, 5, 0x31, 0xC0, 0x0F, 5,
];

const FIVE_REPORT: &str = "skybridge report 1
0 step 400000
0 step 400005
0 print 7
0 step 40000c
0 exit 7
thread 0 home 0 view 0 at 0 ended 7
regs 0 rip 400010 flags 44 0 400010 0 0 3008000 0 0 7 0 0 0 246 0 0 0 0
free 39
keys 0
end
";

const THREE_STEPS: &str = "journal 3
000
budget
skybridge report 1
0 step 400000
0 step 400005
0 print 7
thread 0 home 0 view 0 at 0 running
regs 0 rip 40000c flags 0 0 40000c 0 0 3008000 0 0 7 0 0 0 202 0 0 0 0
free 39
keys 0
end
";

/// Behind a value in EAX: stores it at 800000, loads it from there, and prints it. Behind that no instruction stands.
const THROUGH_MEMORY: [u8; 21] = [
    0x89, 4, 0x25, 0, 0, 0x80, 0, 0x8B, 0x3C, 0x25, 0, 0, 0x80, 0, 0xB8, 1, 0, 0, 0, 0x0F, 5,
];

const USAGE: &str = "usage: skycores run --steps N --block B [--dump]\n";

/// How often a call that waits for another looks for it.
const ROUNDS: u32 = 4_000_000_000;

/// A gate that holds the first call for one core until a turn of another core has begun.
#[derive(Drop)]
struct Held {
    /// The core whose first call waits.
    waits: u8,
    /// The turn of the other core that it waits for.
    until: u64,
    /// 1 once that turn has begun.
    begun: AtomicU64,
    /// 1 once the call that waits was made.
    called: AtomicU64,
    /// 1 where that call gave up.
    late: AtomicU64,
}

impl Held {
    fn new(waits: u8, until: u64) -> Held {
        Held {
            waits,
            until,
            begun: AtomicU64::new(0),
            called: AtomicU64::new(0),
            late: AtomicU64::new(0),
        }
    }

    fn wait(&self) {
        for _ in 0..ROUNDS {
            if self.begun.load(Ordering::SeqCst) == 1 {
                return;
            }
        }
        self.late.store(1, Ordering::SeqCst);
    }

    fn was_met(&self) -> bool {
        self.called.load(Ordering::SeqCst) == 1 && self.late.load(Ordering::SeqCst) == 0
    }
}

impl Gate for Held {
    fn before(&self, core: u8, turn: u64) {
        if core == self.waits {
            if turn == 0 {
                self.called.store(1, Ordering::SeqCst);
                self.wait();
            }
        } else if turn == self.until {
            self.begun.store(1, Ordering::SeqCst);
        }
    }
}

/// A gate that holds the first call of each of two cores until that of the other has begun.
#[derive(Drop)]
struct Both {
    begun: [AtomicU64; 2],
    late: AtomicU64,
}

impl Both {
    fn new() -> Both {
        Both {
            begun: [AtomicU64::new(0), AtomicU64::new(0)],
            late: AtomicU64::new(0),
        }
    }

    fn wait(&self, other: usize)
        requires { other < 2 }
    {
        for _ in 0..ROUNDS {
            if self.begun[other].load(Ordering::SeqCst) == 1 {
                return;
            }
        }
        self.late.store(1, Ordering::SeqCst);
    }

    fn was_met(&self) -> bool {
        self.begun[0].load(Ordering::SeqCst) == 1
            && self.begun[1].load(Ordering::SeqCst) == 1
            && self.late.load(Ordering::SeqCst) == 0
    }
}

impl Gate for Both {
    fn before(&self, core: u8, turn: u64) {
        if core < 2 && turn == 0 {
            let me = usize::from(core);
            self.begun[me].store(1, Ordering::SeqCst);
            self.wait(1 - me);
        }
    }
}

/// A bundle of one process and one core, with so many frames, this text, an entry so far behind its first byte, and an empty
/// schedule.
fn bundle(alloc: Global, frames: u32, text: &[u8], entry: u8) -> Result<Vec<u8>, Fail>
    requires { length text.now < 2 ^ 32 }
{
    let mut bytes = Vec::new(alloc);
    bytes.extend_from_slice(b"SKYB\x01\x00\x01\x01")?;
    bytes.extend_from_slice(&frames.to_le_bytes())?;
    bytes.extend_from_slice(&[0; 8])?;
    bytes.extend_from_slice(&(text.len() as u32).to_le_bytes())?;
    bytes.extend_from_slice(&[0; 8])?;
    bytes.extend_from_slice(text)?;
    bytes.extend_from_slice(&[0, 0, 0, 0, entry, 0, 0x40, 0, 0, 0, 0, 0])?;
    Ok(bytes)
}

/// A bundle of two processes with 8 bytes of data and a core each, which move 7 and 9 through the same address and print them.
fn two_memories(alloc: Global) -> Result<Vec<u8>, Fail> {
    let mut bytes = Vec::new(alloc);
    bytes.extend_from_slice(b"SKYB\x01\x00\x02\x02\x40\x02\0\0\0\0\0\0\0\0\0\0")?;
    for value in [7, 9] {
        bytes.extend_from_slice(&[26, 0, 0, 0, 8, 0, 0, 0, 0, 0, 0, 0, 0xB8, value, 0, 0, 0])?;
        bytes.extend_from_slice(&THROUGH_MEMORY)?;
        bytes.extend_from_slice(&[0; 8])?;
    }
    for core in [0, 1] {
        bytes.extend_from_slice(&[core, 0, 0, 0, 0, 0, 0x40, 0, 0, 0, 0, 0])?;
    }
    Ok(bytes)
}

/// What `cores` answers and writes for words with a blank between them, where the listed calls of the source and the sink fail.
fn outcome<R: Threads + Wait + Sync, G: Gate + Sync>(
    rt: &R,
    alloc: Global,
    words: &str,
    bytes: Vec<u8>,
    fails: (Vec<u64>, Vec<u64>),
    gate: &G,
) -> Result<(Status, Vec<u8>), Fail> {
    let (read_fails, write_fails) = fails;
    let mut list = Vec::new(alloc);
    for word in words.split(' ') {
        list.push(String::from_str(alloc, word)?)?;
    }
    let mut source = MemorySource::new(bytes, 7, read_fails);
    let mut sink = MemorySink::new(alloc, 262_144, 16, write_fails)?;
    let status = cores(rt, alloc, &list, &mut source, &mut sink, gate);
    Ok((status, Vec::from_slice(alloc, sink.held())?))
}

/// The output for words and a bundle, where nothing fails, with this gate.
fn gated_output<R: Threads + Wait + Sync, G: Gate + Sync>(
    rt: &R,
    alloc: Global,
    words: &str,
    bytes: Vec<u8>,
    gate: &G,
) -> Result<(Status, String), Fail> {
    let quiet = (Vec::new(alloc), Vec::new(alloc));
    let (status, held) = outcome(rt, alloc, words, bytes, quiet, gate)?;
    Ok((status, String::from_utf8(held)?))
}

/// The line after the first one: of an output, its journal.
fn second_line(text: &str) -> &str {
    text.lines().nth(1).unwrap_or("")
}

/// How many entries of a journal are of a core.
fn entries_of(journal: &str, core: u8) -> usize {
    journal.bytes().filter(|digit| *digit == core).count()
}

/// The one journal that has no choice: the output is the report of exactly that journal.
#[test]
fn one_core_has_one_journal(rt: HostRuntime) -> Result<(), Fail> {
    let alloc = rt.alloc();
    for words in ["run --steps 100 --block 8", "run --steps 5 --block 1"] {
        let five = bundle(alloc, 576, &FIVE, 0)?;
        let (status, text) = gated_output(&rt, alloc, words, five, &OpenGate)?;
        assert_eq!(rt; status, Status::Done);
        assert!(rt; text.as_str().starts_with("journal 5\n00000\nended\n"));
        assert!(rt; text.as_str().ends_with(FIVE_REPORT));
        assert_eq!(rt; text.len(), 22 + FIVE_REPORT.len());
    }
    Ok(())
}

/// The dump stands behind the same output.
#[test]
fn a_dump_follows_the_report(rt: HostRuntime) -> Result<(), Fail> {
    let alloc = rt.alloc();
    let five = bundle(alloc, 576, &FIVE, 0)?;
    let words = "run --steps 100 --block 8 --dump";
    let (status, text) = gated_output(&rt, alloc, words, five, &OpenGate)?;
    assert_eq!(rt; status, Status::Done);
    let mut begins = String::from_str(alloc, "journal 5\n00000\nended\n")?;
    begins.push_str(FIVE_REPORT)?;
    begins.push_str("dump 576\n")?;
    assert!(rt; text.as_str().starts_with(begins.as_str()));
    assert!(rt; text.as_str().ends_with("\nend\n"));
    Ok(())
}

/// A budget below what the thread makes.
#[test]
fn the_budget_ends_a_run(rt: HostRuntime) -> Result<(), Fail> {
    let alloc = rt.alloc();
    let five = bundle(alloc, 576, &FIVE, 0)?;
    let (status, text) = gated_output(&rt, alloc, "run --steps 3 --block 1", five, &OpenGate)?;
    assert_eq!(rt; status, Status::Done);
    assert_eq!(rt; text.as_str(), THREE_STEPS);
    Ok(())
}

/// Each core's first turn begins before the other's first turn ends, so two threads run.
#[test]
fn two_threads_run(rt: HostRuntime) -> Result<(), Fail> {
    let alloc = rt.alloc();
    let gate = Both::new();
    let two = two_memories(alloc)?;
    let (status, text) = gated_output(&rt, alloc, "run --steps 12 --block 1", two, &gate)?;
    assert_eq!(rt; status, Status::Done);
    assert!(rt; gate.was_met());
    assert!(rt; text.as_str().starts_with("journal 12\n"));
    assert!(rt; text.as_str().contains("\nended\n"));
    let journal = second_line(text.as_str());
    assert_eq!(rt; journal.len(), 12);
    assert_eq!(rt; entries_of(journal, b'0'), 6);
    assert_eq!(rt; entries_of(journal, b'1'), 6);
    assert!(rt; text.as_str().contains("\n0 fault undefined 40001a\n"));
    assert!(rt; text.as_str().contains("\n1 fault undefined 40001a\n"));
    Ok(())
}

/// The journal begins with the core that was not held.
#[test]
fn the_gate_decides(rt: HostRuntime) -> Result<(), Fail> {
    let alloc = rt.alloc();
    for (held, begins) in [(0u8, "journal 12\n1"), (1u8, "journal 12\n0")] {
        let gate = Held::new(held, 1);
        let two = two_memories(alloc)?;
        let (status, text) = gated_output(&rt, alloc, "run --steps 12 --block 1", two, &gate)?;
        assert_eq!(rt; status, Status::Done);
        assert!(rt; gate.was_met());
        assert!(rt; text.as_str().starts_with(begins));
        assert!(rt; text.as_str().contains("\nended\n"));
    }
    Ok(())
}

#[test]
fn refusals_write_one_line(rt: HostRuntime) -> Result<(), Fail> {
    let alloc = rt.alloc();
    let good = "run --steps 9 --block 1";
    #[rattlefmt::skip]
    let rows: [(&str, Vec<u8>, Status, &str); 11] = [
        ("", Vec::new(alloc), Status::BadWords, USAGE),
        ("run --steps 0 --block 1", Vec::new(alloc), Status::BadWords, USAGE),
        ("run --steps 1048577 --block 1", Vec::new(alloc), Status::BadWords, USAGE),
        ("run --steps 1 --block 257", Vec::new(alloc), Status::BadWords, USAGE),
        ("run --steps 01 --block 1", Vec::new(alloc), Status::BadWords, USAGE),
        ("run --block 1 --steps 1", Vec::new(alloc), Status::BadWords, USAGE),
        ("run --dump --steps 1 --block 1", Vec::new(alloc), Status::BadWords, USAGE),
        ("run --steps 1 --block 1 --dump --dump", Vec::new(alloc), Status::BadWords, USAGE),
        (good, Vec::new(alloc), Status::BundleRefused, "bundle Short 0\n"),
        (good, bundle(alloc, 513, &FIVE, 0)?, Status::LoadRefused, "frames 25 1\n"),
        (good, bundle(alloc, 576, &FIVE, 1)?, Status::LoadRefused, "entry 0 400001\n"),
    ];
    for (words, bytes, status, line) in rows {
        let (came, text) = gated_output(&rt, alloc, words, bytes, &OpenGate)?;
        assert_eq!(rt; came, status, "{words}");
        assert_eq!(rt; text.as_str(), line, "{words}");
    }
    Ok(())
}

#[test]
fn faults_of_the_streams_are_told(rt: HostRuntime) -> Result<(), Fail> {
    let alloc = rt.alloc();
    let words = "run --steps 9 --block 1";
    let read = (vec![in alloc; 1]?, Vec::new(alloc));
    let five = bundle(alloc, 576, &FIVE, 0)?;
    let (status, held) = outcome(&rt, alloc, words, five, read, &OpenGate)?;
    assert_eq!(rt; status, Status::ReadFault);
    assert_eq!(rt; held.as_slice(), b"read fault\n".as_slice());
    // The sink takes 16 bytes a call, and its second call fails.
    let write = (Vec::new(alloc), vec![in alloc; 2]?);
    let five = bundle(alloc, 576, &FIVE, 0)?;
    let (status, held) = outcome(&rt, alloc, words, five, write, &OpenGate)?;
    assert_eq!(rt; status, Status::WriteFault);
    assert_eq!(rt; held.as_slice(), b"journal 5\n00000\n".as_slice());
    Ok(())
}

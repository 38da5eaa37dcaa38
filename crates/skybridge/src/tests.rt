//! Runs of the top call over a source and a sink in memory.

use crate::help::described;
use crate::{Status, bridge};
use sb_bundle::BundleRefusal;
use sb_input::InputRefusal;
use sb_load::LoadRefusal;
use sb_machine::Machine;
use sb_port::{MemorySink, MemorySource};
use std::alloc::Global;
use std::process::Abort;
use std::test::Fail;

/// Prints 7 and ends with status 7, in five instructions.
const FIVE: [u8; 16] = [
    0xBF, 7, 0, 0, 0, 0xB8, 1, 0, 0, 0, 0x0F, 5, 0x31, 0xC0, 0x0F, 5,
];

const EIGHT_XORS: [u8; 16] = [
    0x31, 0xC0, 0x31, 0xC0, 0x31, 0xC0, 0x31, 0xC0, 0x31, 0xC0, 0x31, 0xC0, 0x31, 0xC0, 0x31, 0xC0,
];

/// Behind a value in EAX: stores it at 800000, loads it from there, and prints it.
const THROUGH_MEMORY: [u8; 21] = [
    0x89, 4, 0x25, 0, 0, 0x80, 0, 0x8B, 0x3C, 0x25, 0, 0, 0x80, 0, 0xB8, 1, 0, 0, 0, 0x0F, 5,
];

const TWO_MEMORIES_REPORT: &str = "skybridge report 1
0 step 400000
1 step 400000
0 step 400005
1 step 400005
0 step 40000c
1 step 40000c
0 step 400013
1 step 400013
0 print 7
1 print 9
thread 0 home 0 view 0 at 0 running
regs 0 rip 40001a flags 0 0 40001a 0 0 3008000 0 0 7 0 0 0 202 0 0 0 0
thread 1 home 1 view 0 at 1 running
regs 1 rip 40001a flags 0 0 40001a 0 0 3010000 0 0 9 0 0 0 202 0 0 0 0
free 12
keys 0
end
";

/// The report of `FIVE` in 576 frames, of 207 bytes, and the start of a dump behind it.
const FIVE_WITH_DUMP: &str = "skybridge report 1
0 step 400000
0 step 400005
0 print 7
0 step 40000c
0 exit 7
thread 0 home 0 view 0 at 0 ended 7
regs 0 rip 400010 flags 44 0 400010 0 0 3008000 0 0 7 0 0 0 246 0 0 0 0
free 39
keys 0
end
dump 576
core 0 eptp ";

/// Two other programs, written from the description of the format, gave these counts.
const SUMMARY_OF_42: &str = "gen 42
step 53741
print 1309
sys 11
exit 8
fault 0
server fault 0
server exit 0
entered 1309
wrong key 0
pool empty 0
unbound 0
bad leaf 0
return 1309
turn 0
landing 23677
idle 118636
free 235
end
";

const HELP: &str = "A call facility between guest processes that needs no kernel on its path

Usage: skybridge replay [--dump] | plain | check | rewrite
       skybridge gen <NUMBER> [--bundle]
       skybridge --help

Commands:
  replay   Reads a bundle; writes the report of its run, step by step, and with --dump behind it
           the memory of the machine
  plain    Reads a bundle; writes the report of its run on the plain machine
  check    Reads a bundle; writes ok, the frames that it takes, and those that it has
  rewrite  Reads a bundle; writes for each process the instructions that are rewritten
  gen      Reads nothing; generates a bundle from a number (0 to 18446744073709551615) and runs it;
           writes how many lines of each kind its report has, or with --bundle the bundle itself

Options:
      --help  Reads nothing; writes this text

A bundle is read from standard input; what is written goes to standard output.

Statuses:
  0  the whole output was written
  2  the words are no command; writes: usage: skybridge --help
  3  standard input failed; writes: read fault
  4  standard output failed
  5  the input is no bundle; writes: bundle <NAME> <OFFSET>
  6  the bundle cannot be loaded; writes: process <NUMBER> <NAME> <ADDRESS>, or
     entry <CORE> <ADDRESS>, or frames <NEED> <HAVE>
  7  memory did not suffice; writes nothing
  8  the input is longer than 64 MiB; writes: input too long
";

/// A bundle of one process and one core, with so many frames, this text, an entry so far behind its first byte, and so
/// many steps.
fn bundle(alloc: Global, frames: u32, text: &[u8], entry: u8, steps: u32) -> Result<Vec<u8>, Fail> {
    let mut bytes = Vec::new(alloc);
    bytes.extend_from_slice(b"SKYB\x01\x00\x01\x01")?;
    bytes.extend_from_slice(&frames.to_le_bytes())?;
    bytes.extend_from_slice(&[0; 4])?;
    bytes.extend_from_slice(&steps.to_le_bytes())?;
    bytes.extend_from_slice(&u32::try_from(text.len())?.to_le_bytes())?;
    bytes.extend_from_slice(&[0; 8])?;
    bytes.extend_from_slice(text)?;
    bytes.extend_from_slice(&[0, 0, 0, 0, entry, 0, 0x40, 0, 0, 0, 0, 0])?;
    for _ in 0..steps {
        bytes.push(0)?;
    }
    Ok(bytes)
}

/// A bundle of two processes with 8 bytes of data and a core each, which move 7 and 9 through the same address, step by
/// step in turns.
fn two_memories(alloc: Global) -> Result<Vec<u8>, Fail> {
    let mut bytes = Vec::new(alloc);
    bytes.extend_from_slice(b"SKYB\x01\x00\x02\x02\x40\x02\0\0\0\0\0\0\x0A\0\0\0")?;
    for value in [7, 9] {
        bytes.extend_from_slice(&[26, 0, 0, 0, 8, 0, 0, 0, 0, 0, 0, 0, 0xB8, value, 0, 0, 0])?;
        bytes.extend_from_slice(&THROUGH_MEMORY)?;
        bytes.extend_from_slice(&[0; 8])?;
    }
    for core in [0, 1] {
        bytes.extend_from_slice(&[core, 0, 0, 0, 0, 0, 0x40, 0, 0, 0, 0, 0])?;
    }
    bytes.extend_from_slice(&[0, 1, 0, 1, 0, 1, 0, 1, 0, 1])?;
    Ok(bytes)
}

/// What `bridge` answers for words with a blank between them, and what the sink holds then.
fn outcome_at(
    alloc: Global,
    words: &str,
    mut source: MemorySource,
    mut sink: MemorySink,
) -> Result<(Status, Vec<u8>), Fail> {
    let mut list = Vec::new(alloc);
    for word in words.split(' ') {
        list.push(String::from_str(alloc, word)?)?;
    }
    let mut kept: Option<Machine> = None;
    let status = bridge(alloc, &list, &mut source, &mut sink, &mut kept);
    Ok((status, Vec::from_slice(alloc, sink.held())?))
}

/// The same with an ample sink, where the listed calls of the source and the sink fail.
fn outcome(
    alloc: Global,
    words: &str,
    bytes: Vec<u8>,
    read_fails: Vec<u64>,
    write_fails: Vec<u64>,
) -> Result<(Status, Vec<u8>), Fail> {
    let source = MemorySource::new(bytes, 7, read_fails);
    let sink = MemorySink::new(alloc, 262_144, 16, write_fails)?;
    outcome_at(alloc, words, source, sink)
}

/// The same where nothing fails.
fn quiet_outcome(alloc: Global, words: &str, bytes: Vec<u8>) -> Result<(Status, Vec<u8>), Fail> {
    outcome(alloc, words, bytes, Vec::new(alloc), Vec::new(alloc))
}

/// Stops the test where the status or what is written is another, and says at which row.
fn assert_told(rt: &impl Abort, name: &str, found: &(Status, Vec<u8>), status: Status, text: &str) {
    assert_eq!(rt; found.0, status, "{name}");
    assert_eq!(rt; found.1.as_slice(), text.as_bytes(), "{name}");
}

/// Texts, steps, and the lines of the report between its first and the count of free frames.
#[rattlefmt::skip]
const RUNS: [(&str, &[u8], u32, &str); 7] = [
    ("prints 7 and ends with status 7", &FIVE, 5,
        "0 step 400000\n0 step 400005\n0 print 7\n0 step 40000c\n0 exit 7\nthread 0 home 0 view 0 at 0 ended 7\nregs 0 rip 400010 flags 44 0 400010 0 0 3008000 0 0 7 0 0 0 246 0 0 0 0\n"),
    ("a thread that has ended is idle", &FIVE, 7,
        "0 step 400000\n0 step 400005\n0 print 7\n0 step 40000c\n0 exit 7\n0 idle\n0 idle\nthread 0 home 0 view 0 at 0 ended 7\nregs 0 rip 400010 flags 44 0 400010 0 0 3008000 0 0 7 0 0 0 246 0 0 0 0\n"),
    ("no entry of the schedule, no step", &FIVE, 0,
        "thread 0 home 0 view 0 at 0 running\nregs 0 rip 400000 flags 0 0 0 0 0 3008000 0 0 0 0 0 0 0 0 0 0 0\n"),
    ("ends with status 0", &[0x31, 0xC0, 0x0F, 5], 2,
        "0 step 400000\n0 exit 0\nthread 0 home 0 view 0 at 0 ended 0\nregs 0 rip 400004 flags 44 0 400004 0 0 3008000 0 0 0 0 0 0 246 0 0 0 0\n"),
    ("runs into the filler behind its text", &EIGHT_XORS, 9,
        "0 step 400000\n0 step 400002\n0 step 400004\n0 step 400006\n0 step 400008\n0 step 40000a\n0 step 40000c\n0 step 40000e\n0 fault undefined 400010\nthread 0 home 0 view 0 at 0 faulted undefined 400010\nregs 0 rip 400010 flags 44 0 0 0 0 3008000 0 0 0 0 0 0 0 0 0 0 0\n"),
    ("a number that is no call is answered 21", &[0xB8, 5, 0, 0, 0, 0x0F, 5], 2,
        "0 step 400000\n0 sys 5 21\nthread 0 home 0 view 0 at 0 running\nregs 0 rip 400007 flags 0 15 400007 0 0 3008000 0 0 0 0 0 0 202 0 0 0 0\n"),
    ("no instruction starts at the handler of a register call", &[0xB8, 2, 0, 0, 0, 0x0F, 5], 2,
        "0 step 400000\n0 sys 2 12\nthread 0 home 0 view 0 at 0 running\nregs 0 rip 400007 flags 0 c 400007 0 0 3008000 0 0 0 0 0 0 202 0 0 0 0\n"),
];

#[test]
fn threads_run_to_their_report(rt: HostRuntime) -> Result<(), Fail> {
    let alloc = rt.alloc();
    for &(name, text, steps, lines) in &RUNS {
        let report = format!(in alloc; "skybridge report 1\n{lines}free 39\nkeys 0\nend\n")?;
        for word in ["replay", "plain"] {
            let found = quiet_outcome(alloc, word, bundle(alloc, 576, text, 0, steps)?)?;
            assert_told(&rt, name, &found, Status::Done, &report);
        }
    }
    Ok(())
}

/// What a thread does at VMFUNC, the bundle, and its report. Neither the bundles nor the reports come from this program.
#[rattlefmt::skip]
const SWITCHES: [(&str, &[u8], &str); 4] = [
    ("index 1 has no view", &[
        0x53, 0x4B, 0x59, 0x42, 1, 0, 1, 1, 0x40, 2, 0, 0, 0, 0, 0, 0, 0x0E, 0, 0, 0, 0x0C, 0, 0, 0, 0, 0, 0, 0, 0, 0,
        0, 0, 0xB9, 1, 0, 0, 0, 0x31, 0xC0, 0xE9, 0x34, 0, 0xC0, 0x6F, 0, 0, 0, 0, 0, 0, 0x40, 0, 0, 0, 0, 0, 0, 0, 0,
        0, 0, 0, 0, 0, 0, 0, 0, 0, 0, 0,
    ],
"skybridge report 1
0 step 400000
0 step 400005
0 step 400007
0 call 1 unbound
0 step 70000043
0 step 7000004b
0 step 7000004e
0 step 70000052
0 step 70000056
0 step 7000005a
0 step 7000005e
0 step 70000062
0 step 70000066
0 fault memory 0
thread 0 home 0 view 0 at 0 faulted memory 0
regs 0 rip 70000069 flags 44 3 0 0 0 0 0 0 0 0 3 0 0 0 0 0 0
free 39
keys 0
end
"),
    ("EAX is not 0", &[
        0x53, 0x4B, 0x59, 0x42, 1, 0, 1, 1, 0x40, 2, 0, 0, 0, 0, 0, 0, 0x0E, 0, 0, 0, 0x0F, 0, 0, 0, 0, 0, 0, 0, 0, 0,
        0, 0, 0xB9, 0, 2, 0, 0, 0xB8, 1, 0, 0, 0, 0xE9, 0x31, 0, 0xC0, 0x6F, 0, 0, 0, 0, 0, 0, 0x40, 0, 0, 0, 0, 0, 0,
        0, 0, 0, 0, 0, 0, 0, 0, 0, 0, 0, 0, 0,
    ],
"skybridge report 1
0 step 400000
0 step 400005
0 step 40000a
0 call 512 bad leaf
0 step 70000043
0 step 7000004b
0 step 7000004e
0 step 70000052
0 step 70000056
0 step 7000005a
0 step 7000005e
0 step 70000062
0 step 70000066
0 fault memory 0
thread 0 home 0 view 0 at 0 faulted memory 0
regs 0 rip 70000069 flags 44 5 0 0 0 0 0 0 0 0 5 0 0 0 0 0 0
free 39
keys 0
end
"),
    ("index 0 at home", &[
        0x53, 0x4B, 0x59, 0x42, 1, 0, 1, 1, 0x40, 2, 0, 0, 0, 0, 0, 0, 0x0E, 0, 0, 0, 9, 0, 0, 0, 0, 0, 0, 0, 0, 0, 0,
        0, 0x31, 0xC9, 0x31, 0xC0, 0xE9, 0x37, 0, 0xC0, 0x6F, 0, 0, 0, 0, 0, 0, 0x40, 0, 0, 0, 0, 0, 0, 0, 0, 0, 0, 0,
        0, 0, 0, 0, 0, 0, 0, 0,
    ],
"skybridge report 1
0 step 400000
0 step 400002
0 step 400004
0 turn
0 step 70000043
0 step 7000004b
0 step 7000004e
0 step 70000052
0 step 70000056
0 step 7000005a
0 step 7000005e
0 step 70000062
0 step 70000066
0 fault memory 0
thread 0 home 0 view 0 at 0 faulted memory 0
regs 0 rip 70000069 flags 44 0 0 0 0 0 0 0 0 0 0 0 0 0 0 0 0
free 39
keys 0
end
"),
    ("a schedule that ends in a landing", &[
        0x53, 0x4B, 0x59, 0x42, 1, 0, 2, 2, 0x80, 2, 0, 0, 1, 0, 0, 0, 0x22, 0, 0, 0, 5, 0, 0, 0, 0, 0, 0, 0, 0x27, 0,
        0, 0, 8, 0, 0, 0, 0, 0, 0, 0, 0xBF, 0x17, 0, 0x40, 0, 0xBE, 2, 0, 0, 0, 0xB8, 2, 0, 0, 0, 0x0F, 5, 0x31, 0xFF,
        0x31, 0xC0, 0x0F, 5, 0xBA, 1, 0, 0, 0, 0xF0, 0x48, 0x0F, 0xC1, 0x14, 0x25, 0, 0, 0x80, 0, 0xC3, 0, 0, 0, 0, 0,
        0, 0, 0, 0x3C, 0, 0, 0, 0, 0, 0, 0, 0, 0, 0, 0, 0xBF, 0, 0, 0, 0, 0xB8, 3, 0, 0, 0, 0x0F, 5, 0x85, 0xC0, 0x75,
        0xF0, 0x49, 0x89, 0xD4, 0x4D, 0x89, 0xC5, 0x41, 0xBE, 1, 0, 0, 0, 0x4C, 0x89, 0xE7, 0x4C, 0x89, 0xEE, 0xE8,
        0xD9, 0xFF, 0xBF, 0x6F, 0x48, 0x89, 0xD7, 0xB8, 1, 0, 0, 0, 0x0F, 5, 0x41, 0xFF, 0xCE, 0x75, 0xE6, 0x31, 0xFF,
        0x31, 0xC0, 0x0F, 5, 0, 0, 0, 0, 0, 0, 0x40, 0, 0, 0, 0, 0, 1, 0, 0, 0, 0, 0, 0x40, 0, 0, 0, 0, 0, 0, 0, 0, 0,
        0, 0, 0, 1, 1, 1, 1, 1, 1, 1, 1, 1, 1, 1, 1, 1, 1, 1, 1, 1, 1, 1, 1, 1, 1, 1, 1, 1, 1, 1,
    ],
"skybridge report 1
0 step 400000
0 step 400005
0 step 40000a
0 sys 2 0
0 step 400011
0 step 400013
0 exit 0
1 step 400000
1 step 400005
1 sys 3 0
1 step 40000c
1 step 40000e
1 step 400010
1 step 400013
1 step 400016
1 step 40001c
1 step 40001f
1 step 400022
1 step 70000000
1 step 70000008
1 step 7000000b
1 step 7000000f
1 step 70000013
1 step 70000017
1 step 7000001b
1 step 7000001f
1 step 70000023
1 step 70000025
1 step 70000027
1 landing v
1 landing 0
1 landing 1
1 landing 2
1 landing 3
thread 0 home 0 view 0 at 0 ended 0
regs 0 rip 400017 flags 44 0 400017 0 0 3008000 0 2 0 0 0 0 246 0 0 0 0
thread 1 home 1 view 0 at 1 running
regs 1 rip 70000040 flags 44 0 1 1 0 300fff8 0 5 1 5 0 2044000 202 1 5 1 0
flight 1 4
free 59
keys 0
end
"),
];

#[test]
fn threads_switch_to_their_report(rt: HostRuntime) -> Result<(), Fail> {
    let alloc = rt.alloc();
    for &(name, bytes, report) in &SWITCHES {
        for word in ["replay", "plain"] {
            let found = quiet_outcome(alloc, word, Vec::from_slice(alloc, bytes)?)?;
            assert_told(&rt, name, &found, Status::Done, report);
        }
    }
    Ok(())
}

#[test]
fn each_process_has_its_own_memory(rt: HostRuntime) -> Result<(), Fail> {
    let alloc = rt.alloc();
    let found = quiet_outcome(alloc, "replay", two_memories(alloc)?)?;
    assert_told(
        &rt,
        "two memories",
        &found,
        Status::Done,
        TWO_MEMORIES_REPORT,
    );
    Ok(())
}

/// What of a bundle of one process and one core is other: frames, text, entry, steps, and how many bytes its end lacks.
type Input = (u32, &'static [u8], u8, u32, usize);

/// Words, the input, which may be empty, the status, and the line that is written.
type Refused = (
    &'static str,
    &'static str,
    Option<Input>,
    Status,
    &'static str,
);

#[rattlefmt::skip]
const REFUSED: [Refused; 11] = [
    ("another word", "run", Some((576, &FIVE, 0, 5, 0)), Status::BadWords, "usage: skybridge --help\n"),
    ("a number with a leading zero", "gen 042", None, Status::BadWords, "usage: skybridge --help\n"),
    ("a number with a sign", "gen +42", None, Status::BadWords, "usage: skybridge --help\n"),
    ("2^64", "gen 18446744073709551616 --bundle", None, Status::BadWords, "usage: skybridge --help\n"),
    ("a word too many", "gen 42 --bundle check", None, Status::BadWords, "usage: skybridge --help\n"),
    ("no bytes", "replay", None, Status::BundleRefused, "bundle Short 0\n"),
    ("no schedule", "replay", Some((576, &FIVE, 0, 5, 5)), Status::BundleRefused, "bundle Short 60\n"),
    ("the bytes of VMFUNC in a call through memory", "replay",
        Some((576, &[0xFF, 0x94, 0x24, 0x0F, 1, 0xD4, 0], 0, 0, 0)), Status::LoadRefused, "process 0 Unmovable 400000\n"),
    ("an entry inside an instruction", "replay", Some((576, &FIVE, 1, 5, 0)), Status::LoadRefused, "entry 0 400001\n"),
    ("one frame too few", "replay", Some((536, &FIVE, 0, 5, 0)), Status::LoadRefused, "frames 25 24\n"),
    ("the same for the other word", "plain", Some((536, &FIVE, 0, 5, 0)), Status::LoadRefused, "frames 25 24\n"),
];

/// The bytes of an input.
fn bytes_of(alloc: Global, input: Option<Input>) -> Result<Vec<u8>, Fail> {
    let Some((frames, text, entry, steps, lacks)) = input else {
        return Ok(Vec::new(alloc));
    };
    let mut bytes = bundle(alloc, frames, text, entry, steps)?;
    bytes.truncate(bytes.len().saturating_sub(lacks));
    Ok(bytes)
}

#[test]
fn refusals_write_one_line(rt: HostRuntime) -> Result<(), Fail> {
    let alloc = rt.alloc();
    for &(name, words, input, status, line) in &REFUSED {
        let found = quiet_outcome(alloc, words, bytes_of(alloc, input)?)?;
        assert_told(&rt, name, &found, status, line);
    }
    Ok(())
}

#[rattlefmt::skip]
const REFUSALS: [(InputRefusal, &str); 5] = [
    (InputRefusal::ReadFault, "the source failed"),
    (InputRefusal::TooLong, "the input is longer than the limit"),
    (InputRefusal::Bundle(BundleRefusal::Magic { at: 0 }), "no magic bytes at 0"),
    (InputRefusal::Load(LoadRefusal::NoFrames { need: 25, have: 24 }), "frames 25 24"),
    (InputRefusal::Memory, "out of memory"),
];

#[test]
fn refusals_have_texts(rt: HostRuntime) -> Result<(), Fail> {
    for (refusal, text) in &REFUSALS {
        let told = format!(in rt.alloc(); "{refusal}")?;
        assert_eq!(rt; told.as_str(), *text);
    }
    Ok(())
}

/// Words, the text of one process, and what is written.
#[rattlefmt::skip]
const CHECKS: [(&str, &str, &[u8], &str); 5] = [
    ("the frames that a bundle takes and has", "check", &FIVE, "ok 25 64\n"),
    ("no edit", "rewrite", &FIVE, "process 0\nend\n"),
    ("VMFUNC", "rewrite", &[0x0F, 1, 0xD4], "process 0\nedit 400000 0f01d4 909090\nend\n"),
    ("in place", "rewrite", &[0x6A, 0x0F, 1, 0xD4], "process 0\nedit 400002 01d4 03e2\nend\n"),
    ("moved", "rewrite", &[5, 0x0F, 1, 0xD4, 0],
        "process 0\nedit 400000 050f01d400 e9fb0fc0ff\nslot 1000 48890c250040007048c7c10f00d400488d890001000001c8488b0c2500400070e9e0ef3f00\nend\n"),
];

#[test]
fn texts_are_checked_and_rewritten(rt: HostRuntime) -> Result<(), Fail> {
    let alloc = rt.alloc();
    for &(name, word, text, wanted) in &CHECKS {
        let found = quiet_outcome(alloc, word, bundle(alloc, 576, text, 0, 0)?)?;
        assert_told(&rt, name, &found, Status::Done, wanted);
    }
    Ok(())
}

#[test]
fn a_generated_bundle_has_one_summary(rt: HostRuntime) -> Result<(), Fail> {
    let alloc = rt.alloc();
    for _ in 0..2 {
        let found = quiet_outcome(alloc, "gen 42", Vec::new(alloc))?;
        assert_told(&rt, "gen 42", &found, Status::Done, SUMMARY_OF_42);
    }
    Ok(())
}

#[test]
fn a_generated_bundle_is_read_back(rt: HostRuntime) -> Result<(), Fail> {
    let alloc = rt.alloc();
    for words in [
        "gen 42 --bundle",
        "gen 0 --bundle",
        "gen 18446744073709551615 --bundle",
    ] {
        let (status, bytes) = quiet_outcome(alloc, words, Vec::new(alloc))?;
        let found = quiet_outcome(alloc, "check", bytes)?;
        assert_told(&rt, words, &found, Status::Done, "ok 203 512\n");
        assert!(rt; status == Status::Done, "{words}");
    }
    Ok(())
}

#[test]
fn the_help_text_names_each_command(rt: HostRuntime) -> Result<(), Fail> {
    let alloc = rt.alloc();
    let found = quiet_outcome(alloc, "--help", Vec::new(alloc))?;
    assert_told(&rt, "--help", &found, Status::Done, HELP);
    Ok(())
}

/// Words, and whether the description takes them.
#[rattlefmt::skip]
const WORDS: [(&[&str], bool); 11] = [
    (&["replay"], true),
    (&["replay", "--dump"], true),
    (&["plain"], true),
    (&["check"], true),
    (&["rewrite"], true),
    (&["gen", "42"], true),
    (&["gen", "42", "--bundle"], true),
    (&["gen"], false),
    (&["replay", "42"], false),
    (&["run"], false),
    (&["-h"], false),
];

/// Whether the description of the words that the program takes, as `clap` reads it, takes these.
fn are_described(alloc: Global, words: &[&str]) -> Result<bool, Fail> {
    let mut named: Vec<&str> = Vec::new(alloc);
    named.push("skybridge")?;
    named.extend_from_slice(words)?;
    Ok(
        described(alloc)?
            .try_get_matches_from(named.as_slice())
            .is_ok(),
    )
}

/// `clap` describes the words that the program takes, but for the form of a number.
#[test]
fn the_help_text_describes_the_words(rt: HostRuntime) -> Result<(), Fail> {
    let alloc = rt.alloc();
    for (words, described_so) in &WORDS {
        assert!(rt; are_described(alloc, words)? == *described_so, "{words:?}");
    }
    Ok(())
}

#[test]
fn exactly_enough_frames_are_enough(rt: HostRuntime) -> Result<(), Fail> {
    let alloc = rt.alloc();
    let found = quiet_outcome(alloc, "replay", bundle(alloc, 537, &FIVE, 0, 0)?)?;
    let report =
        "skybridge report 1\nthread 0 home 0 view 0 at 0 running\nregs 0 rip 400000 flags 0 0 0 0 0 3008000 0 0 0 0 0 0 0 0 0 0 0\nfree 0\nkeys 0\nend\n";
    assert_told(&rt, "no frame is left", &found, Status::Done, report);
    Ok(())
}

#[test]
fn a_fault_of_the_source_is_told(rt: HostRuntime) -> Result<(), Fail> {
    let alloc = rt.alloc();
    let five = bundle(alloc, 576, &FIVE, 0, 5)?;
    let found = outcome(alloc, "replay", five, vec![in alloc; 1]?, Vec::new(alloc))?;
    assert_told(
        &rt,
        "the first call",
        &found,
        Status::ReadFault,
        "read fault\n",
    );
    Ok(())
}

#[test]
fn a_fault_of_the_sink_leaves_a_prefix(rt: HostRuntime) -> Result<(), Fail> {
    let alloc = rt.alloc();
    // The sink takes 16 bytes a call, and its third call fails.
    let five = bundle(alloc, 576, &FIVE, 0, 5)?;
    let found = outcome(alloc, "replay", five, Vec::new(alloc), vec![in alloc; 3]?)?;
    let prefix = "skybridge report 1\n0 step 400000";
    assert_told(&rt, "the third call", &found, Status::WriteFault, prefix);
    // A refusal keeps its status where its line is not written whole.
    let empty = Vec::new(alloc);
    let found = outcome(alloc, "replay", empty, Vec::new(alloc), vec![in alloc; 1]?)?;
    assert_told(&rt, "a refusal", &found, Status::BundleRefused, "");
    Ok(())
}

#[test]
fn a_dump_follows_the_report(rt: HostRuntime) -> Result<(), Fail> {
    let alloc = rt.alloc();
    let five = bundle(alloc, 576, &FIVE, 0, 5)?;
    let (status, held) = quiet_outcome(alloc, "replay --dump", five)?;
    assert_eq!(rt; status, Status::Done);
    assert!(rt; held.starts_with(FIVE_WITH_DUMP.as_bytes()));
    assert!(rt; held.ends_with(b"\nend\n"));
    Ok(())
}

/// The sink is full in the report, exactly at its end, and in the dump.
#[test]
fn a_full_sink_has_a_front_of_report_and_dump(rt: HostRuntime) -> Result<(), Fail> {
    let alloc = rt.alloc();
    for capacity in [32, 207, 228] {
        let five = MemorySource::new(bundle(alloc, 576, &FIVE, 0, 5)?, 7, Vec::new(alloc));
        let sink = MemorySink::new(alloc, capacity, 16, Vec::new(alloc))?;
        let (status, held) = outcome_at(alloc, "replay --dump", five, sink)?;
        assert_eq!(rt; (status, held.len()), (Status::WriteFault, capacity));
        assert!(rt; FIVE_WITH_DUMP.as_bytes().starts_with(&held));
    }
    Ok(())
}

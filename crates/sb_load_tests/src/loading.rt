//! Bundles against what loading answers: the frames that it takes, or why it is refused.

use crate::bundles::{PRINTS, PRINTS_TEXT, Program, bundle_of};
use crate::same::{assert_same, text_of};
use sb_bundle::CoreStart;
use sb_load::LoadRefusal::{self, BadEntry, NoFrames, Process};
use sb_load::{Loaded, load};
use sb_rewrite::RewriteRefusal::{self, AreaFull, BadTarget, Undecoded, Unmovable};
use std::alloc::{AllocError, Global};
use std::test::Fail;

/// The first address of a text.
const START: u64 = 0x40_0000;

/// The same with 8 bytes of data and 3 heap pages.
const LARGER: Program = Program {
    initial: &[0; 8],
    heap_pages: 3,
    ..PRINTS
};

/// XOR EAX, EAX alone.
const CLEARS: Program = Program {
    text: &[0x31, 0xC0],
    ..PRINTS
};

/// Why a text with no instruction at 400002 is refused.
const BROKEN_THERE: RewriteRefusal = Undecoded { at: START + 2 };

/// No instruction stands at 400002.
const BROKEN: Program = Program {
    text: &[0x31, 0xC0, 0xCC],
    ..PRINTS
};

/// No instruction stands at 400000.
const STOP: Program = Program {
    text: &[0xCC],
    ..PRINTS
};

/// What loading answers for these processes and cores.
fn loading_of(
    alloc: Global,
    frames: u32,
    programs: &[Program],
    cores: &[CoreStart],
) -> Result<Result<Loaded, LoadRefusal>, Fail> {
    let bundle = bundle_of(alloc, frames, programs, cores)?;
    Ok(load(alloc, &bundle))
}

/// What loading answers, where a core starts in each process at its entry: the need, or why not.
fn answer(
    alloc: Global,
    frames: u32,
    programs: &[Program],
    entries: &[u64],
) -> Result<Result<u32, LoadRefusal>, Fail> {
    let mut cores = Vec::new(alloc);
    for (process, &entry) in (0..).zip(entries) {
        cores.push(CoreStart { process, entry })?;
    }
    match loading_of(alloc, frames, programs, &cores)? {
        Ok(loaded) => Ok(Ok(loaded.need())),
        Err(refusal) => Ok(Err(refusal)),
    }
}

/// What loading answers for one process with this text, whose thread starts at its first byte.
fn answer_of_text(alloc: Global, text: &[u8]) -> Result<Result<u32, LoadRefusal>, Fail> {
    answer(alloc, 576, &[Program { text, ..PRINTS }], &[START])
}

/// Texts, and why they are refused.
#[rattlefmt::skip]
const TEXTS: [(&str, &[u8], Option<RewriteRefusal>); 8] = [
    ("whole instructions", &PRINTS_TEXT, None),
    ("VMFUNC itself", &[0x0F, 0x01, 0xD4], None),
    ("no instruction", &[0x66, 0x90], Some(Undecoded { at: START })),
    ("none behind an instruction", &[0x31, 0xC0, 0xCC], Some(Undecoded { at: START + 2 })),
    ("a jump to the text's end", &[0xEB, 0x00], Some(BadTarget { at: START })),
    ("a jump to itself", &[0xEB, 0xFE], None),
    ("a jump to 70000040, in the trampoline page", &[0xE9, 0x3B, 0x00, 0xC0, 0x6F], None),
    ("a call through memory with the bytes of VMFUNC", &[0xFF, 0x94, 0x24, 0x0F, 0x01, 0xD4, 0x00],
        Some(Unmovable { at: START })),
];

#[test]
fn refuses_a_text_that_cannot_be_rewritten(rt: HostRuntime) -> Result<(), Fail> {
    for &(name, text, why) in &TEXTS {
        let expected = match why {
            None => Ok(25),
            Some(why) => Err(Process { process: 0, why }),
        };
        assert_same(&rt, name, &answer_of_text(rt.alloc(), text)?, &expected);
    }
    Ok(())
}

/// IMUL RCX, [RDI], 0000D401 so many times, each of which is moved to a slot of 13 bytes.
fn moved_text(alloc: Global, count: u32) -> Result<Vec<u8>, AllocError> {
    let mut text = Vec::new(alloc);
    for _ in 0..count {
        text.extend_from_slice(&[0x48, 0x69, 0x0F, 0x01, 0xD4, 0x00, 0x00])?;
    }
    Ok(text)
}

#[test]
fn a_rewrite_area_takes_its_pages(rt: HostRuntime) -> Result<(), Fail> {
    // 315 slots fill one page but for a byte.
    for (name, count, need) in [("one", 1, 26), ("a page", 315, 26), ("one more", 316, 27)] {
        let text = moved_text(rt.alloc(), count)?;
        assert_same(&rt, name, &answer_of_text(rt.alloc(), &text)?, &Ok(need));
    }
    Ok(())
}

/// Frames, processes, the entry of a core in each, and what loading answers.
#[rattlefmt::skip]
const BUNDLES: [(&str, u32, &[Program], &[u64], Result<u32, LoadRefusal>); 13] = [
    ("as many frames as it takes", 537, &[PRINTS], &[START], Ok(25)),
    ("one frame less", 536, &[PRINTS], &[START], Err(NoFrames { need: 25, have: 24 })),
    ("data and heap", 541, &[LARGER], &[START], Ok(29)),
    ("data and heap, one frame less", 540, &[LARGER], &[START], Err(NoFrames { need: 29, have: 28 })),
    ("two of each", 562, &[PRINTS, PRINTS], &[START, START], Ok(50)),
    ("an entry inside an instruction", 576, &[PRINTS], &[START + 1], Err(BadEntry { core: 0, at: START + 1 })),
    ("an entry further on", 576, &[PRINTS], &[START + 12], Ok(25)),
    ("an entry at the text's end", 576, &[PRINTS], &[START + 16], Err(BadEntry { core: 0, at: START + 16 })),
    ("a start of another process", 600, &[PRINTS, CLEARS], &[START + 5, START + 5],
        Err(BadEntry { core: 1, at: START + 5 })),
    ("the first of two refused texts", 600, &[BROKEN, STOP], &[START], Err(Process { process: 0, why: BROKEN_THERE })),
    ("the second text", 600, &[PRINTS, BROKEN], &[START], Err(Process { process: 1, why: BROKEN_THERE })),
    ("a text before an entry", 536, &[BROKEN], &[START + 1], Err(Process { process: 0, why: BROKEN_THERE })),
    ("an entry before the frames", 513, &[PRINTS], &[START + 1], Err(BadEntry { core: 0, at: START + 1 })),
];

#[test]
fn refuses_texts_then_entries_then_frames(rt: HostRuntime) -> Result<(), Fail> {
    for (name, frames, programs, cores, expected) in &BUNDLES {
        let found = answer(rt.alloc(), *frames, programs, cores)?;
        assert_same(&rt, name, &found, expected);
    }
    Ok(())
}

/// The rewritten text of a process, and whether an instruction starts 5 bytes behind its start, if there is such a process.
fn text_of_process(loaded: &Loaded, process: u32) -> Option<(&[u8], bool)> {
    if process as usize >= loaded.bundle().images.items().len() {
        return None;
    }
    let made = loaded.rewritten(process);
    Some((made.text(), made.is_start(START + 5)))
}

#[test]
fn keeps_the_bundle_and_its_rewritten_texts(rt: HostRuntime) -> Result<(), Fail> {
    let core = CoreStart {
        process: 1,
        entry: START,
    };
    let loaded = loading_of(rt.alloc(), 576, &[PRINTS, CLEARS], &[core])??;
    assert_same(&rt, "frames", &loaded.bundle().frames, &576);
    let texts = [Some((PRINTS.text, true)), Some((CLEARS.text, false)), None];
    for (process, text) in (0..).zip(&texts) {
        assert_same(&rt, "text", &text_of_process(&loaded, process), text);
    }
    Ok(())
}

/// Lines of a report, and the refusals that they tell.
#[rattlefmt::skip]
const LINES: [(&str, LoadRefusal); 6] = [
    ("process 1 Undecoded 40898e", Process { process: 1, why: Undecoded { at: 0x40_898E } }),
    ("process 1 BadTarget 40898e", Process { process: 1, why: BadTarget { at: 0x40_898E } }),
    ("process 1 Unmovable 40898e", Process { process: 1, why: Unmovable { at: 0x40_898E } }),
    ("process 1 AreaFull 40898e", Process { process: 1, why: AreaFull { at: 0x40_898E } }),
    ("entry 7 0", BadEntry { core: 7, at: 0 }),
    ("frames 25 24", NoFrames { need: 25, have: 24 }),
];

#[test]
fn writes_the_line_of_a_refusal(rt: HostRuntime) -> Result<(), Fail> {
    for (line, refusal) in &LINES {
        assert_same(&rt, "line", &text_of(rt.alloc(), refusal)?.as_str(), line);
    }
    Ok(())
}

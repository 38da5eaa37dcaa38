//! The start of a small machine, and steps of it.

use crate::same::assert_same;
use sb_bundle::read_bundle;
use sb_load::load;
use sb_plain::Plain;
use sb_trace::{EndState, Event};
use std::alloc::Global;
use std::test::Fail;

/// A bundle of 600 frames and three key words. Process 0 has XOR EAX, EAX and SYSCALL; process 1 has the same, a byte of
/// data and a page of heap. Both cores start in process 1 at its second instruction.
#[rattlefmt::skip]
const BUNDLE: [u8; 101] = [
    0x53, 0x4B, 0x59, 0x42, 1, 0, 2, 2, 0x58, 0x02, 0, 0, 3, 0, 0, 0, 0, 0, 0, 0, // header
    5, 0, 0, 0, 0, 0, 0, 0, 6, 0, 0, 0, 0, 0, 0, 0, 7, 0, 0, 0, 0, 0, 0, 0, // key words
    4, 0, 0, 0, 0, 0, 0, 0, 0, 0, 0, 0, 0x31, 0xC0, 0x0F, 0x05, // process 0
    4, 0, 0, 0, 1, 0, 0, 0, 1, 0, 0, 0, 0x31, 0xC0, 0x0F, 0x05, 7, // process 1
    1, 0, 0, 0, 2, 0, 0x40, 0, 0, 0, 0, 0, // core 0
    1, 0, 0, 0, 2, 0, 0x40, 0, 0, 0, 0, 0, // core 1
];

/// A bundle of 600 frames with MOV EAX, 00D4010F and SYSCALL, which core 0 starts at. The MOV holds the bytes of VMFUNC.
#[rattlefmt::skip]
const MOVED: [u8; 51] = [
    0x53, 0x4B, 0x59, 0x42, 1, 0, 1, 1, 0x58, 0x02, 0, 0, 0, 0, 0, 0, 0, 0, 0, 0, // header
    7, 0, 0, 0, 0, 0, 0, 0, 0, 0, 0, 0, 0xB8, 0x0F, 0x01, 0xD4, 0, 0x0F, 0x05, // process 0
    0, 0, 0, 0, 0, 0, 0x40, 0, 0, 0, 0, 0, // core 0
];

/// The steps of its first instruction: the jump to its slot, and the slot, in which the instruction at 1016 does the work.
#[rattlefmt::skip]
const STEPS: [Event; 7] = [
    Event::Extra { rip: 0x40_0000 }, Event::Extra { rip: 0x1000 }, Event::Extra { rip: 0x1008 }, Event::Extra { rip: 0x100F },
    Event::Step { rip: 0x1016 }, Event::Extra { rip: 0x1018 }, Event::Extra { rip: 0x1020 },
];

/// The machine that a bundle starts.
fn start(alloc: Global, bytes: &[u8]) -> Result<Plain, Fail> {
    let bundle = read_bundle(alloc, bytes)
        .ok()
        .ok_or("the bytes are a bundle")?;
    let loaded = load(alloc, &bundle).ok().ok_or("the bundle may be loaded")?;
    Ok(Plain::new(alloc, &loaded)?)
}

/// What happens at a step of a core, without the contract of `step`, which tests do not need.
fn event_of(plain: &mut Plain, core: u8) -> Event {
    plain.step(core).event
}

/// What is left of a machine.
fn end_of(alloc: Global, plain: &Plain) -> Result<EndState, Fail> {
    Ok(plain.end(alloc)?)
}

#[test]
fn a_machine_starts_with_these_threads(rt: HostRuntime) -> Result<(), Fail> {
    let end = end_of(rt.alloc(), &start(rt.alloc(), &BUNDLE)?)?;
    // Of 88 frames 24 are for two processes, 4 for their pages, and 24 for two threads.
    assert_same(&rt, "frames and keys", &(end.free, end.keys), &(36, 3));
    assert_same(&rt, "threads", &end.threads.items().len(), &2);
    for (number, thread) in end.threads.items().iter().enumerate() {
        assert_same(
            &rt,
            "place",
            &(thread.home, thread.view, thread.present),
            &(1, 0, 1),
        );
        assert_same(&rt, "RIP", &thread.regs.rip, &0x40_0002);
        assert_same(&rt, "flight", &thread.flight, &None);
        assert_same(&rt, "RDI", &thread.regs.general[7], &(number as u64));
    }
    Ok(())
}

#[test]
fn a_moved_instruction_runs_through_its_slot(rt: HostRuntime) -> Result<(), Fail> {
    let mut plain = start(rt.alloc(), &MOVED)?;
    for event in STEPS {
        assert_same(&rt, "step", &event_of(&mut plain, 0), &event);
    }
    let end = end_of(rt.alloc(), &plain)?;
    assert_same(&rt, "threads", &end.threads.items().len(), &1);
    for thread in end.threads.items() {
        // RAX and RCX, and the address of the SYSCALL.
        let [rax, rcx, ..] = thread.regs.general;
        assert_same(
            &rt,
            "registers",
            &(rax, rcx, thread.regs.rip),
            &(0xD4_010F, 0, 0x40_0005),
        );
    }
    Ok(())
}

#[test]
fn a_core_without_a_thread_is_idle(rt: HostRuntime) -> Result<(), Fail> {
    let mut plain = start(rt.alloc(), &MOVED)?;
    assert_same(&rt, "core 1", &event_of(&mut plain, 1), &Event::Idle);
    assert_same(
        &rt,
        "core 0",
        &event_of(&mut plain, 0),
        &Event::Extra { rip: 0x40_0000 },
    );
    Ok(())
}

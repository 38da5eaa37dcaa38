//! What threads access in their views: the walk through the tables answers as the plain state does.

use crate::nested::Machine;
use crate::plain::plain_state;
use crate::rows::{VIEWS, ViewRow};
use crate::same::assert_same;
use sb_bus::{Bus, BusStop, FaultKind};
use sb_eptwalk::is_eptp;
use sb_memory::{Access, Linear, Phys, PhysAddr};
use sb_nested::{NestedBus, NestedStop, translate};
use sb_state::{PlainBus, PlainState};
use std::test::Fail;

/// A call of a bus.
#[derive(Clone, Copy)]
enum Call {
    Fetch,
    Load,
    LoadForWrite,
    Store(u8),
}

/// The byte that a call gives, 0 for a store.
fn make_call<B: Bus>(bus: &mut B, at: u64, call: Call) -> Result<u64, BusStop> {
    let at = Linear(at);
    match call {
        Call::Fetch => match bus.fetch(at) {
            Ok(byte) => Ok(u64::from(byte)),
            Err(stop) => Err(stop),
        },
        Call::Load => bus.load(at, 1),
        Call::LoadForWrite => bus.load_for_write(at, 1),
        Call::Store(byte) => match bus.store(at, 1, u64::from(byte)) {
            Ok(()) => Ok(0),
            Err(stop) => Err(stop),
        },
    }
}

/// CR3 of the threads of a process.
fn cr3(home: u32) -> u64 {
    4096 * (16 + u64::from(home))
}

/// A call through the tables, where the list of the view's thread has a pointer for it.
fn nested_call(
    machine: &mut Machine,
    view: &ViewRow,
    at: u64,
    call: Call,
) -> Option<Result<u64, BusStop>> {
    let eptp = machine.pointer(view.thread, view.index);
    let memory = &mut machine.memory;
    if !is_eptp(eptp) || (eptp >> 12) & 0xFF_FFFF_FFFF >= u64::from(memory.frames()) {
        return None;
    }
    Some(make_call(&mut NestedBus::new(memory, eptp, cr3(view.home)), at, call))
}

/// The same call on the plain state.
fn plain_call(state: &mut PlainState, view: &ViewRow, at: u64, call: Call) -> Result<u64, BusStop> {
    let mut bus = PlainBus::new(state, u32::from(view.thread), u32::from(view.index));
    make_call(&mut bus, at, call)
}

/// What a row is to answer: this byte, or a fault at the address.
#[derive(Clone, Copy)]
enum Answer {
    Byte(u64),
    Refused,
    NotCanonical,
}

use Answer::{Byte, NotCanonical, Refused};

fn expected(answer: Answer, at: u64) -> Result<u64, BusStop> {
    match answer {
        Byte(byte) => Ok(byte),
        Refused => Err(BusStop::Fault(FaultKind::Memory, Linear(at))),
        NotCanonical => Err(BusStop::Fault(FaultKind::Canon, Linear(at))),
    }
}

/// What each of the three views answers: at home in the client, in the server by the binding, at home in the server.
#[rattlefmt::skip]
const ROWS: [(&str, u64, Call, [Answer; 3]); 35] = [
    ("text, fetched", 0x40_0000, Call::Fetch, [Byte(0x31), Byte(0x0F), Byte(0x0F)]),
    ("behind the text", 0x40_0FFF, Call::Fetch, [Byte(0xCC); 3]),
    ("text, read", 0x40_0000, Call::Load, [Refused; 3]),
    ("text, written", 0x40_0000, Call::LoadForWrite, [Refused; 3]),
    ("a page behind the text", 0x40_1000, Call::Fetch, [Refused; 3]),
    ("data, read", 0x80_0000, Call::Load, [Byte(1), Byte(4), Byte(4)]),
    ("data, written", 0x80_0000, Call::LoadForWrite, [Byte(1), Byte(4), Byte(4)]),
    ("data, fetched", 0x80_0000, Call::Fetch, [Refused; 3]),
    ("heap, written", 0xC0_0000, Call::LoadForWrite, [Byte(2), Byte(5), Byte(5)]),
    ("heap, fetched", 0xC0_0000, Call::Fetch, [Refused; 3]),
    ("heap that is code, fetched", 0xC0_1000, Call::Fetch, [Byte(0xC3), Refused, Refused]),
    ("heap that is code, read", 0xC0_1000, Call::Load, [Refused; 3]),
    ("heap that is code, written", 0xC0_1000, Call::LoadForWrite, [Refused; 3]),
    ("a rewrite area of no page", 0x1000, Call::Fetch, [Refused; 3]),
    ("the pool page", 0x7000_6000, Call::LoadForWrite, [Byte(3), Byte(6), Byte(6)]),
    ("a buffer of both", 0x200_4000, Call::LoadForWrite, [Byte(10); 3]),
    ("a save page of the client's thread", 0x300_0000, Call::LoadForWrite, [Byte(0), Refused, Refused]),
    ("a stack of the client's thread", 0x300_4000, Call::Load, [Byte(8), Refused, Refused]),
    ("a stack of the server's thread", 0x300_F000, Call::Load, [Refused, Byte(9), Byte(9)]),
    ("a stack for calls", 0x400_0000, Call::Load, [Refused, Byte(7), Byte(7)]),
    ("the trampoline of the view", 0x7000_0001, Call::Fetch, [Byte(0x8B), Byte(0x8D), Byte(0x8B)]),
    ("VMFUNC, its first byte", 0x7000_0040, Call::Fetch, [Byte(0x0F); 3]),
    ("VMFUNC, its second byte", 0x7000_0041, Call::Fetch, [Byte(0x01); 3]),
    ("VMFUNC, its third byte", 0x7000_0042, Call::Fetch, [Byte(0xD4); 3]),
    ("behind VMFUNC", 0x7000_0044, Call::Fetch, [Byte(0x8B), Byte(0x3B), Byte(0x8B)]),
    ("the trampoline, read", 0x7000_0040, Call::Load, [Refused; 3]),
    ("the trampoline, written", 0x7000_0040, Call::LoadForWrite, [Refused; 3]),
    ("the key of the view's record", 0x7000_2000, Call::Load, [Byte(0), Byte(0x88), Byte(0)]),
    ("the thread of the view's record", 0x7000_2018, Call::Load, [Byte(0), Byte(0), Byte(1)]),
    ("a record, written", 0x7000_2000, Call::LoadForWrite, [Refused; 3]),
    ("a scratch page", 0x7000_4FFF, Call::LoadForWrite, [Byte(0); 3]),
    ("a scratch page, fetched", 0x7000_4000, Call::Fetch, [Refused; 3]),
    ("no window", 0x60_0000, Call::Load, [Refused; 3]),
    ("the upper half", 0xFFFF_8000_0000_0000, Call::Load, [Refused; 3]),
    ("an address that is not canonical", 0x8000_0000_0000, Call::Load, [NotCanonical; 3]),
];

#[test]
fn each_view_answers_as_the_plain_state(rt: HostRuntime) -> Result<(), Fail> {
    let mut machine = Machine::new(rt.alloc())?;
    let mut state = plain_state(rt.alloc())?;
    for (shows, at, call, answers) in &ROWS {
        for (view, answer) in VIEWS.iter().zip(answers) {
            let wanted = expected(*answer, *at);
            assert_same(
                &rt,
                shows,
                &plain_call(&mut state, view, *at, *call),
                &wanted,
            );
            let found = nested_call(&mut machine, view, *at, *call);
            assert_same(&rt, shows, &found, &Some(wanted));
        }
    }
    Ok(())
}

/// Stores: in which view a byte is put at an address, and what the three views find there afterwards.
#[rattlefmt::skip]
const STORES: [(&str, usize, u64, u8, [Answer; 3]); 8] = [
    ("a buffer from home", 0, 0x200_4000, 0x21, [Byte(0x21); 3]),
    ("a buffer from the server", 1, 0x200_4FFF, 0x22, [Byte(0x22); 3]),
    ("data of the server by the binding", 1, 0x80_0000, 0x23, [Byte(1), Byte(0x23), Byte(0x23)]),
    ("data of the client", 0, 0x80_0000, 0x24, [Byte(0x24), Byte(0x23), Byte(0x23)]),
    ("a heap of the server's own thread", 2, 0xC0_0FFF, 0x25, [Byte(0), Byte(0x25), Byte(0x25)]),
    ("a scratch page of one view", 0, 0x7000_4000, 0x26, [Byte(0x26), Byte(0), Byte(0)]),
    ("a scratch page of another view", 1, 0x7000_4000, 0x27, [Byte(0x26), Byte(0x27), Byte(0)]),
    ("the pool page by the binding", 1, 0x7000_6000, 0x28, [Byte(3), Byte(0x28), Byte(0x28)]),
];

#[test]
fn a_store_is_seen_where_the_page_is(rt: HostRuntime) -> Result<(), Fail> {
    let mut machine = Machine::new(rt.alloc())?;
    let mut state = plain_state(rt.alloc())?;
    for &(shows, by, at, value, answers) in &STORES {
        let view = VIEWS.get(by).ok_or("a view")?;
        let store = Call::Store(value);
        assert_same(&rt, shows, &plain_call(&mut state, view, at, store), &Ok(0));
        let stored = nested_call(&mut machine, view, at, store);
        assert_same(&rt, shows, &stored, &Some(Ok(0)));
        for (view, &answer) in VIEWS.iter().zip(&answers) {
            let wanted = expected(answer, at);
            assert_same(
                &rt,
                shows,
                &plain_call(&mut state, view, at, Call::Load),
                &wanted,
            );
            let found = nested_call(&mut machine, view, at, Call::Load);
            assert_same(&rt, shows, &found, &Some(wanted));
        }
    }
    Ok(())
}

/// Where an address leads in a view.
fn place(machine: &mut Machine, view: &ViewRow, at: u64) -> Option<Result<PhysAddr, NestedStop>> {
    let eptp = machine.pointer(view.thread, view.index);
    let memory = &mut machine.memory;
    if !is_eptp(eptp) || (eptp >> 12) & 0xFF_FFFF_FFFF >= u64::from(memory.frames()) {
        return None;
    }
    Some(translate(memory, eptp, cr3(view.home), Linear(at), Access::Fetch))
}

#[test]
fn the_pattern_stands_at_two_places(rt: HostRuntime) -> Result<(), Fail> {
    let mut machine = Machine::new(rt.alloc())?;
    for (view, first) in VIEWS.iter().zip([0x1040, 0x4040, 0x1040]) {
        for offset in 0..3 {
            let found = place(&mut machine, view, 0x7000_0040 + offset);
            assert_same(&rt, "VMFUNC", &found, &Some(Ok(PhysAddr(first + offset))));
        }
    }
    Ok(())
}

#[test]
fn indices_without_a_view_have_no_entry(rt: HostRuntime) -> Result<(), Fail> {
    let mut machine = Machine::new(rt.alloc())?;
    for index in 2..512 {
        assert_same(&rt, "thread 0", &machine.pointer(0, index), &0);
    }
    for index in 1..512 {
        assert_same(&rt, "thread 1", &machine.pointer(1, index), &0);
    }
    Ok(())
}

//! Stores and loads of several threads over one small state.

ghost use Rattle.std.specs.Prelude.{◌≡◌, ◌==◌, ◌||◌, IfOk, length};

use crate::same::assert_same;
use sb_bus::{Bus, BusStop, FaultKind};
use sb_insn::{Flags, Regs};
use sb_list::Listed;
use sb_memory::Linear;
use sb_state::{
    Binding, Bindings, EndKind, Page, PageName, Pages, PlainBus, PlainState, Thread, no_thread,
};
use sb_tramp::KeyWords;
use std::alloc::Global;
use std::test::Fail;

/// The first page of a process's initial data.
const DATA: u64 = 0x80_0000;

/// The first page of a process's heap.
const HEAP: u64 = 0xC0_0000;

/// Where the text begins.
const TEXT: u64 = 0x40_0000;

/// A page of these bytes with a filler behind them.
fn page(alloc: Global, name: PageName, prefix: &[u8], filler: u8) -> Result<Page, Fail>
    ensures { IfOk result (λ page. length page.bytes ≡ 4096) }
{
    let mut bytes = Vec::from_slice(alloc, prefix)?;
    bytes.resize(4096, filler)?;
    Ok(Page {
        name,
        executable: false,
        bytes: Listed::new(bytes),
    })
}

/// A thread at home in a process.
fn thread(home: u32) -> Thread {
    Thread {
        home,
        regs: Regs {
            general: [0; 16],
            rip: TEXT,
            flags: Flags::CLEAR,
        },
        view: 0,
        bindings: Bindings::new(),
        state: EndKind::Running,
    }
}

/// Two processes with a page of data each.
fn pages(alloc: Global) -> Result<Pages, Fail> {
    let mut pages = Pages::new(alloc);
    pages.push(page(alloc, PageName::Text(0, 0), &[0x31, 0xC0], 0xCC)?)?;
    pages.push(page(alloc, PageName::Data(0, 0), &[], 0)?)?;
    pages.push(page(alloc, PageName::Heap(0, 0), &[], 0)?)?;
    pages.push(page(alloc, PageName::Data(1, 0), &[], 0)?)?;
    pages.push(page(alloc, PageName::Stack(0, 0), &[], 0)?)?;
    pages.push(page(alloc, PageName::Stack(0, 1), &[], 0)?)?;
    Ok(pages)
}

/// Threads 0 and 1 are at home in the first process, thread 2 in the second.
fn threads(alloc: Global) -> Result<Vec<Thread>, Fail> {
    let mut threads = Vec::new(alloc);
    threads.push(thread(0))?;
    threads.push(thread(0))?;
    threads.push(thread(1))?;
    Ok(threads)
}

/// A machine of these pages and threads.
fn state_of(alloc: Global, pages: Pages, threads: Vec<Thread>) -> Result<PlainState, Fail> {
    let flights = vec![in alloc; None; threads.len()]?;
    Ok(PlainState {
        pages,
        processes: Vec::new(alloc),
        threads,
        absent: no_thread(),
        flights,
        free: 0,
        keys: KeyWords::new(Vec::new(alloc)),
    })
}

/// The machine of both processes and of the three threads.
fn state(alloc: Global) -> Result<PlainState, Fail> {
    state_of(alloc, pages(alloc)?, threads(alloc)?)
}

/// Whether an access may have so many bytes.
fn is_size(size: u8) -> bool
    ensures { result ≡ (size == 1) || (size == 4) || (size == 8) }
{
    size == 1 || size == 4 || size == 8
}

/// What a store of a thread answers in a view, if the size is one of a bus.
fn store(
    state: &mut PlainState,
    thread: u32,
    view: u32,
    at: u64,
    size: u8,
    value: u64,
) -> Option<Result<(), BusStop>> {
    if !is_size(size) {
        return None;
    }
    Some(PlainBus::new(state, thread, view).store(Linear(at), size, value))
}

/// What a load of a thread answers in a view, if the size is one of a bus.
fn load(
    state: &mut PlainState,
    thread: u32,
    view: u32,
    at: u64,
    size: u8,
) -> Option<Result<u64, BusStop>> {
    if !is_size(size) {
        return None;
    }
    Some(PlainBus::new(state, thread, view).load(Linear(at), size))
}

/// What a load of eight bytes that are to be written answers to thread 0 at home.
fn load_for_write(state: &mut PlainState, at: u64) -> Result<u64, BusStop> {
    PlainBus::new(state, 0, 0).load_for_write(Linear(at), 8)
}

/// What a fetch answers to thread 0 at home.
fn fetch(state: &mut PlainState, at: u64) -> Result<u8, BusStop> {
    PlainBus::new(state, 0, 0).fetch(Linear(at))
}

#[test]
fn threads_of_one_process_share_its_pages(rt: HostRuntime) -> Result<(), Fail> {
    let mut state = state(rt.alloc())?;
    for (number, value) in [(0, 7), (2, 9)] {
        let stored = store(&mut state, number, 0, DATA, 8, value);
        assert_same(&rt, "stored", &stored, &Some(Ok(())));
    }
    let rows: [(&str, u32, u64); 3] = [
        ("the thread that stored", 0, 7),
        ("another thread of its process", 1, 7),
        ("a thread of another process, with its own page", 2, 9),
    ];
    for &(name, number, value) in &rows {
        let loaded = load(&mut state, number, 0, DATA, 8);
        assert_same(&rt, name, &loaded, &Some(Ok(value)));
    }
    Ok(())
}

/// A fault of memory.
fn memory_fault(at: u64) -> BusStop {
    BusStop::Fault(FaultKind::Memory, Linear(at))
}

/// Addresses and sizes of stores, and their answers.
#[rattlefmt::skip]
const STORES: [(&str, u64, u8, Result<(), BusStop>); 9] = [
    ("the heap", HEAP, 8, Ok(())),
    ("the lowest page of the stack", 0x300_4000, 4, Ok(())),
    ("across two pages of the stack", 0x300_4FFC, 8, Ok(())),
    ("past the last page of the stack that is there", 0x300_5FFC, 8, Err(BusStop::Fault(FaultKind::Memory, Linear(0x300_6000)))),
    ("below the stack", 0x300_3FFF, 1, Err(BusStop::Fault(FaultKind::Memory, Linear(0x300_3FFF)))),
    ("a save page that is not there", 0x300_0000, 1, Err(BusStop::Fault(FaultKind::Memory, Linear(0x300_0000)))),
    ("past the end of the data, at the first byte that fails", DATA + 0xFFC, 8,
        Err(BusStop::Fault(FaultKind::Memory, Linear(DATA + 0x1000)))),
    ("text", TEXT, 1, Err(BusStop::Fault(FaultKind::Memory, Linear(TEXT)))),
    ("an address that is not canonical", 0x8000_0000_0000, 1, Err(BusStop::Fault(FaultKind::Canon, Linear(0x8000_0000_0000)))),
];

/// Addresses, and what stands there after the stores. A store that stops has written no byte.
#[rattlefmt::skip]
const STORED: [(&str, u64, u64); 4] = [
    ("the heap has all eight bytes", HEAP, 0x0807_0605_0403_0201),
    ("the stack has the lowest four", 0x300_4000, 0x0403_0201),
    ("bytes on both sides of a border", 0x300_4FFD, 0x0008_0706_0504_0302),
    ("the end of the data is as before", DATA + 0xFF8, 0),
];

#[test]
fn stores_reach_what_they_may_write(rt: HostRuntime) -> Result<(), Fail> {
    let mut state = state(rt.alloc())?;
    for &(name, at, size, answer) in &STORES {
        let stored = store(&mut state, 0, 0, at, size, 0x0807_0605_0403_0201);
        assert_same(&rt, name, &stored, &Some(answer));
    }
    for &(name, at, value) in &STORED {
        assert_same(&rt, name, &load_for_write(&mut state, at), &Ok(value));
    }
    Ok(())
}

#[test]
fn text_is_fetched_and_not_read(rt: HostRuntime) -> Result<(), Fail> {
    let mut state = state(rt.alloc())?;
    assert_same(&rt, "text, fetched", &fetch(&mut state, TEXT), &Ok(0x31));
    let read = load(&mut state, 0, 0, TEXT, 1);
    assert_same(&rt, "text, read", &read, &Some(Err(memory_fault(TEXT))));
    assert_same(
        &rt,
        "data, fetched",
        &fetch(&mut state, DATA),
        &Err(memory_fault(DATA)),
    );
    Ok(())
}

/// The machine with a ninth thread, which is bound to the second process and has the four pages of its buffer.
fn state_of_nine(alloc: Global) -> Result<PlainState, Fail> {
    let mut threads = threads(alloc)?;
    for _ in 3..8 {
        threads.push(thread(0))?;
    }
    let mut bindings = Bindings::new();
    bindings.push(Binding {
        index: 1,
        server: 1,
        key: 0,
    });
    threads.push(Thread {
        bindings,
        ..thread(0)
    })?;
    let mut pages = pages(alloc)?;
    for number in 0..4 {
        let name = PageName::Buffer(8, 1, number);
        pages.push(page(alloc, name, &[], 0)?)?;
    }
    state_of(alloc, pages, threads)
}

#[test]
fn a_ninth_thread_has_its_buffer(rt: HostRuntime) -> Result<(), Fail> {
    let mut state = state_of_nine(rt.alloc())?;
    // It stores in its home, the last byte of the four pages included, and the server's view has what it stored.
    for (at, value) in [(0x220_4000, 7), (0x220_7FF8, 9)] {
        assert_same(
            &rt,
            "stored",
            &store(&mut state, 8, 0, at, 8, value),
            &Some(Ok(())),
        );
        assert_same(
            &rt,
            "loaded",
            &load(&mut state, 8, 1, at, 8),
            &Some(Ok(value)),
        );
    }
    let past = load(&mut state, 8, 0, 0x220_8000, 1);
    assert_same(
        &rt,
        "past the buffer",
        &past,
        &Some(Err(memory_fault(0x220_8000))),
    );
    Ok(())
}

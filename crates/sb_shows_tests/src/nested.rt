//! The small machine in physical memory: page tables of two processes, the root kernel's lists and views, and the pages in frames
//! of the book.

ghost use Rattle.std.specs.Prelude.{◌≡◌, ◌+◌, IsTrue, IfOk, length};
ghost use Rattle.sb_memory.specs.Physical.{frame_count};
ghost use Rattle.sb_pagewalk.specs.Windows.{IsInWindow};
ghost use Rattle.sb_root.specs.Standing.{IsBooked, Stands};

use crate::rows::{COUNT, ROWS, Row, Seer, VIEWS, ViewRow};
use sb_frames::{FrameBook, Kind};
use sb_memory::{Frame, Linear, Memory, Phys, PhysAddr};
use sb_pagewalk::TableSet;
use sb_root::{RootKernel, Switch, switch};
use sb_state::Mode;
use sb_tramp::{put_home, put_server};
use std::alloc::{AllocError, Global};

/// How many frames the memory has.
const FRAMES: u32 = 1024;

/// The first of the eleven tables of each process, behind the frames that the book gives.
const TABLES: [u32; 2] = [800, 820];

/// Bit 63 of a lowest entry: no fetch.
const NO_FETCH: u64 = 1 << 63;

/// Memory of so many frames. Contracts do not see its bytes, so that no proof lists them.
fn some_memory(alloc: Global) -> Result<Memory, AllocError>
    ensures { IfOk result (λ memory. frame_count memory ≡ FRAMES) }
{
    Memory::new(alloc, FRAMES)
}

/// Whether an address is in a window, so that its page has an entry in the tables of a process.
#[tactic(auto, unfolding(sb_pagewalk::specs::Windows::page_table_of))]
fn is_in_window(at: u64) -> bool
    ensures { IsTrue result → IsInWindow at }
{
    matches!(at / 0x20_0000, 0 | 2 | 4 | 6 | 16 | 24 | 32 | 896)
}

/// Builds the page tables of a process with these lowest entries.
fn put_tables(memory: &mut Memory, root: u32, first: u32, entries: &[(u64, u64)])
    ensures { frame_count memory.new ≡ frame_count memory.old }
{
    if first <= root || first >= 900 || memory.frames() < 1000 {
        return;
    }
    let tables = [
        Frame(first),
        Frame(first + 1),
        Frame(first + 2),
        Frame(first + 3),
        Frame(first + 4),
        Frame(first + 5),
        Frame(first + 6),
        Frame(first + 7),
        Frame(first + 8),
        Frame(first + 9),
        Frame(first + 10),
    ];
    let set = TableSet::build(memory, Frame(root), tables);
    for &(at, entry) in entries {
        if is_in_window(at) {
            set.set_page(memory, Linear(at), entry);
        }
    }
}

/// The lowest entry for a page in a frame.
fn leaf(frame: u32, mode: Mode) -> u64 {
    let start = 4096 * u64::from(frame);
    match mode {
        Mode::Fetch => start + 5,
        Mode::Read => start + 5 + NO_FETCH,
        Mode::ReadWrite => start + 7 + NO_FETCH,
    }
}

/// What the EPT permits of a page.
fn rights(mode: Mode) -> u8 {
    match mode {
        Mode::Fetch => 4,
        Mode::Read => 1,
        Mode::ReadWrite => 3,
    }
}

/// The lowest entries of the client or the server: its pages, and the own pages of each view.
fn entries(
    alloc: Global,
    process: Seer,
    frames: &[u32; COUNT],
) -> Result<Vec<(u64, u64)>, AllocError> {
    let mut entries = vec![in alloc;
        (0x7000_0000, 0x1005),
        (0x7000_2000, 0x2005 + NO_FETCH),
        (0x7000_4000, 0x3007 + NO_FETCH),
    ]?;
    for (row, &frame) in ROWS.iter().zip(frames) {
        if row.seer == process || row.seer == Seer::Both {
            entries.push((row.at, leaf(frame, row.mode)))?;
        }
    }
    Ok(entries)
}

/// Puts the bytes of a page into a frame.
fn put_bytes(memory: &mut Memory, frame: u32, bytes: &[u8; 4096])
    ensures { frame_count memory.new ≡ frame_count memory.old }
{
    if frame < memory.frames() {
        memory.set_bytes(PhysAddr(4096 * u64::from(frame)), bytes);
    }
}

/// The book of that memory, with all its frames free.
fn some_book(alloc: Global) -> Result<FrameBook, AllocError>
    ensures { IfOk result (λ book. length book + 512 ≡ FRAMES) }
{
    FrameBook::new(alloc, FRAMES)
}

/// Takes a frame; 0 where none is free.
#[tactic(auto, using(sb_frames::proofs::Lengths::length_after_take))]
fn take_frame(book: &mut FrameBook) -> u32
    ensures { length book.new ≡ length book.old }
{
    match book.take(Kind::Writable, 0) {
        Some(frame) => frame.0,
        None => 0,
    }
}

/// Takes a frame for each page.
fn take_frames(book: &mut FrameBook) -> [u32; COUNT]
    ensures { length book.new ≡ length book.old }
{
    let mut frames = [0; COUNT];
    for index in 0..COUNT {
        frames[index] = take_frame(book);
    }
    frames
}

/// Puts the bytes of a page of the table into a frame.
fn put_row(memory: &mut Memory, frame: u32, row: &Row)
    ensures { frame_count memory.new ≡ frame_count memory.old }
{
    let mut bytes = [row.filler; 4096];
    bytes[0] = row.first;
    put_bytes(memory, frame, &bytes);
}

/// Puts the trampoline pages into their frames.
fn put_trampoline(memory: &mut Memory)
    ensures { frame_count memory.new ≡ frame_count memory.old }
{
    let mut bytes = [0; 4096];
    put_home(&mut bytes);
    put_bytes(memory, 1, &bytes);
    put_server(&mut bytes);
    put_bytes(memory, 4, &bytes);
}

/// Puts the bytes of all pages but the own ones of views.
fn put_pages(memory: &mut Memory, frames: &[u32; COUNT])
    ensures { frame_count memory.new ≡ frame_count memory.old }
{
    for (row, &frame) in ROWS.iter().zip(frames) {
        put_row(memory, frame, row);
    }
    put_trampoline(memory);
}

/// A root kernel with its memory and book.
#[derive(Drop)]
struct Builder {
    memory: Memory,
    book: FrameBook,
    root: RootKernel,

    ghost stands: { Stands root memory },
    ghost booked: { IsBooked root book memory },
}

impl Builder {
    /// The machine with its pages, tables and views.
    fn new(alloc: Global) -> Result<Builder, AllocError> {
        let mut memory = some_memory(alloc)?;
        let mut book = some_book(alloc)?;
        let frames = take_frames(&mut book);
        put_tables(
            &mut memory,
            16,
            TABLES[0],
            &entries(alloc, Seer::Client, &frames)?,
        );
        put_tables(
            &mut memory,
            17,
            TABLES[1],
            &entries(alloc, Seer::Server, &frames)?,
        );
        put_pages(&mut memory, &frames);
        let root = RootKernel::new(&mut memory);
        let mut machine = Builder { memory, book, root };
        machine.expose_all(&frames);
        machine.add_list(0);
        machine.add_list(1);
        for view in VIEWS {
            machine.add_view(&view);
        }
        Ok(machine)
    }

    /// Lets the pages and the tables be reached.
    fn expose_all(&mut self, frames: &[u32; COUNT]) {
        for (row, &frame) in ROWS.iter().zip(frames) {
            self.expose(frame, rights(row.mode));
        }
        for first in TABLES {
            for table in 0..11 {
                self.expose(first + table, 1);
            }
        }
    }

    fn expose(&mut self, frame: u32, rights: u8) {
        if frame >= 512 && frame < self.memory.frames() && matches!(rights, 0 | 1 | 3 | 4) {
            self.root.expose(&mut self.memory, Frame(frame), rights);
        }
    }

    fn add_list(&mut self, thread: u8) {
        if thread < 32 && !self.root.has_list(thread) {
            let _ = self.root.add_list(&mut self.memory, &mut self.book, thread);
        }
    }

    fn add_view(&mut self, view: &ViewRow) {
        if view.thread >= 32
            || !self.root.has_list(view.thread)
            || self.root.is_set(view.thread, 15)
        {
            return;
        }
        if view.home >= 16 || view.target >= 16 {
            return;
        }
        let _ = self.root.add_view(
            &mut self.memory,
            &mut self.book,
            view.thread,
            Frame(16 + view.home),
            Frame(16 + view.target),
            &view.words,
            view.index != 0,
        );
    }

    /// The frame of a thread's list; frame 0 where it has none.
    fn list(&self, thread: u8) -> Frame {
        if thread >= 32 || !self.root.has_list(thread) {
            return Frame(0);
        }
        self.root.list_frame(thread)
    }
}

/// The machine: its memory, and the frames of the lists of its threads.
#[derive(Drop)]
pub struct Machine {
    pub memory: Memory,
    first: Frame,
    second: Frame,
}

impl Machine {
    /// The machine with its pages, tables and views.
    pub fn new(alloc: Global) -> Result<Machine, AllocError> {
        let built = Builder::new(alloc)?;
        Ok(Machine {
            first: built.list(0),
            second: built.list(1),
            memory: built.memory,
        })
    }

    /// The entry of a thread's list, as VMFUNC takes it, and 0 where there is none.
    pub fn pointer(&mut self, thread: u8, index: u16) -> u64 {
        let list = if thread == 0 { self.first } else { self.second };
        if list.0 >= self.memory.frames() {
            return 0;
        }
        match switch(&mut self.memory, list, 0, u32::from(index)) {
            Ok(Switch::To { eptp }) => eptp,
            _ => 0,
        }
    }
}

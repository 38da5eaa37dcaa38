//! The pages of the small machine.
//!
//! Process 0 is the client, process 1 the server. Thread 0 is at home in the client and bound to the server at index 1; thread 1
//! is at home in the server.

use sb_state::{Mode, PageName};
use sb_tramp::RecordWords;

/// Who sees a page.
#[derive(Clone, Copy, PartialEq, Eq)]
pub enum Seer {
    Client,
    Server,
    Both,
}

/// A page that is no view's own: its name, where it is seen, and what it holds.
#[derive(Clone, Copy)]
pub struct Row {
    pub name: PageName,
    /// The address of its first byte.
    pub at: u64,
    pub seer: Seer,
    pub mode: Mode,
    /// The first byte.
    pub first: u8,
    /// All other bytes.
    pub filler: u8,
}

/// How many pages there are.
pub const COUNT: usize = 15;

/// The pages, in the order in which they take frames.
#[rattlefmt::skip]
pub const ROWS: [Row; COUNT] = [
    Row { name: PageName::Text(0, 0), at: 0x40_0000, seer: Seer::Client, mode: Mode::Fetch, first: 0x31, filler: 0xCC },
    Row { name: PageName::Data(0, 0), at: 0x80_0000, seer: Seer::Client, mode: Mode::ReadWrite, first: 1, filler: 0 },
    Row { name: PageName::Heap(0, 0), at: 0xC0_0000, seer: Seer::Client, mode: Mode::ReadWrite, first: 2, filler: 0 },
    Row { name: PageName::Heap(0, 1), at: 0xC0_1000, seer: Seer::Client, mode: Mode::Fetch, first: 0xC3, filler: 0 },
    Row { name: PageName::Pool(0), at: 0x7000_6000, seer: Seer::Client, mode: Mode::ReadWrite, first: 3, filler: 0 },
    Row { name: PageName::Save(0), at: 0x300_0000, seer: Seer::Client, mode: Mode::ReadWrite, first: 0, filler: 0 },
    Row { name: PageName::Stack(0, 0), at: 0x300_4000, seer: Seer::Client, mode: Mode::ReadWrite, first: 8, filler: 0 },
    Row { name: PageName::Text(1, 0), at: 0x40_0000, seer: Seer::Server, mode: Mode::Fetch, first: 0x0F, filler: 0xCC },
    Row { name: PageName::Data(1, 0), at: 0x80_0000, seer: Seer::Server, mode: Mode::ReadWrite, first: 4, filler: 0 },
    Row { name: PageName::Heap(1, 0), at: 0xC0_0000, seer: Seer::Server, mode: Mode::ReadWrite, first: 5, filler: 0 },
    Row { name: PageName::Pool(1), at: 0x7000_6000, seer: Seer::Server, mode: Mode::ReadWrite, first: 6, filler: 0 },
    Row { name: PageName::ServerStack(1, 0), at: 0x400_0000, seer: Seer::Server, mode: Mode::ReadWrite, first: 7, filler: 0 },
    Row { name: PageName::Save(1), at: 0x300_8000, seer: Seer::Server, mode: Mode::ReadWrite, first: 0, filler: 0 },
    Row { name: PageName::Stack(1, 3), at: 0x300_F000, seer: Seer::Server, mode: Mode::ReadWrite, first: 9, filler: 0 },
    Row { name: PageName::Buffer(0, 1, 0), at: 0x200_4000, seer: Seer::Both, mode: Mode::ReadWrite, first: 10, filler: 0 },
];

/// A view: its thread and its index there, the home of the thread and the process that the view shows.
#[derive(Clone, Copy)]
pub struct ViewRow {
    pub thread: u8,
    pub index: u16,
    pub home: u32,
    pub target: u32,
    /// What its record page says.
    pub words: RecordWords,
}

/// The three views: at home in the client, in the server by the binding, and at home in the server.
#[rattlefmt::skip]
pub const VIEWS: [ViewRow; 3] = [
    ViewRow {
        thread: 0, index: 0, home: 0, target: 0,
        words: RecordWords { key: 0, base: 0, handler: 0, thread: 0, save: 0x300_0000, home: 0 },
    },
    ViewRow {
        thread: 0, index: 1, home: 0, target: 1,
        words: RecordWords { key: 0x1122_3344_5566_7788, base: 0x400_3FF8, handler: 0x40_0017, thread: 0, save: 0, home: 0 },
    },
    ViewRow {
        thread: 1, index: 0, home: 1, target: 1,
        words: RecordWords { key: 0, base: 0, handler: 0, thread: 1, save: 0x300_8000, home: 1 },
    },
];

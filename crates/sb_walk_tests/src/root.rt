//! Views over a small memory, read by `ept_walk` and `switch`.

ghost use Rattle.std.specs.Prelude.{◌≡◌, ◌+◌, length, IfOk};
ghost use Rattle.sb_memory.specs.Physical.{frame_count};
ghost use Rattle.sb_root.specs.Standing.{IsBooked, Stands};

use crate::same::assert_same;
use crate::sparse::word_at;
use sb_eptwalk::{EptStop, ept_walk, is_eptp};
use sb_frames::{FrameBook, Kind};
use sb_memory::{Access, Frame, GuestPhys, Memory, Missing, Phys, PhysAddr};
use sb_root::{NoFrames, RootKernel, Switch, switch};
use sb_tramp::RecordWords;
use std::alloc::{AllocError, Global};

/// The pointer to the base.
const BASE: u64 = 0x501E;

/// How many frames the memory has.
const FRAMES: u32 = 1024;

/// The words of every record page of the tests.
const WORDS: RecordWords = RecordWords {
    key: 0x1122_3344_5566_7788,
    base: 0x400_3FF8,
    handler: 0x40_0017,
    thread: 0,
    save: 0,
    home: 2,
};

/// A root kernel with its memory and book. Its calls answer `None` where the root kernel may not be called.
#[derive(Drop)]
struct Machine {
    memory: Memory,
    book: FrameBook,
    root: RootKernel,

    ghost stands: { Stands root memory },
    ghost booked: { IsBooked root book memory },
}

/// Memory of so many frames. Contracts do not see its bytes, so that no proof lists them.
fn some_memory(alloc: Global, frames: u32) -> Result<Memory, AllocError>
    ensures { IfOk result (λ memory. frame_count memory ≡ frames) }
{
    Memory::new(alloc, frames)
}

/// The book of that memory with so many free frames, the last ones.
fn some_book(alloc: Global, free: u32) -> Result<FrameBook, AllocError>
    ensures { IfOk result (λ book. length book + 512 ≡ FRAMES) }
{
    let mut book = FrameBook::new(alloc, FRAMES)?;
    for _ in free..FRAMES - 512 {
        book.take(Kind::Writable, 0);
    }
    Ok(book)
}

impl Machine {
    fn new(alloc: Global, free: u32) -> Result<Machine, AllocError> {
        let mut memory = some_memory(alloc, FRAMES)?;
        let book = some_book(alloc, free)?;
        let root = RootKernel::new(&mut memory);
        Ok(Machine { memory, book, root })
    }

    fn list(&self, thread: u8) -> Option<Frame> {
        if thread >= 32 || !self.root.has_list(thread) {
            return None;
        }
        Some(self.root.list_frame(thread))
    }

    fn expose(&mut self, frame: u32, rights: u8) {
        if frame >= 512 && frame < self.memory.frames() && matches!(rights, 0 | 1 | 3 | 4) {
            self.root.expose(&mut self.memory, Frame(frame), rights);
        }
    }

    fn add_list(&mut self, thread: u8) -> Option<Result<(), NoFrames>> {
        if thread >= 32 || self.root.has_list(thread) {
            return None;
        }
        Some(self.root.add_list(&mut self.memory, &mut self.book, thread))
    }

    /// A view of the home process where it is the target too, else of a server.
    fn add_view(&mut self, thread: u8, home: u32, target: u32) -> Option<Result<u16, NoFrames>> {
        if !(16..32).contains(&home) || !(16..32).contains(&target) {
            return None;
        }
        if thread >= 32 || !self.root.has_list(thread) || self.root.is_set(thread, 15) {
            return None;
        }
        Some(
            self.root.add_view(
                &mut self.memory,
                &mut self.book,
                thread,
                Frame(home),
                Frame(target),
                &WORDS,
                home != target,
            ),
        )
    }

    fn clear_entry(&mut self, thread: u8, index: u16) {
        if thread >= 32 || index >= 16 || !self.root.has_list(thread) {
            return;
        }
        if self.root.is_set(thread, index) {
            self.root.clear_entry(&mut self.memory, thread, index);
        }
    }

    fn switch(&mut self, thread: u8, eax: u32, ecx: u32) -> Option<Result<Switch, Missing>> {
        let list = self.list(thread)?;
        if list.0 >= self.memory.frames() {
            return None;
        }
        Some(switch(&mut self.memory, list, eax, ecx))
    }

    /// The pointer to which a switch leads.
    fn pointer(&mut self, thread: u8, index: u32) -> u64 {
        match self.switch(thread, 0, index) {
            Some(Ok(Switch::To { eptp })) => eptp,
            _ => 0,
        }
    }

    /// The pointers to the base and to the three views of thread 0.
    fn pointers(&mut self) -> [u64; 4] {
        [
            BASE,
            self.pointer(0, 0),
            self.pointer(0, 1),
            self.pointer(0, 2),
        ]
    }

    /// The answers of walks from four pointers.
    fn walks(
        &mut self,
        pointers: [u64; 4],
        at: u64,
        access: Access,
    ) -> [Option<Result<PhysAddr, EptStop>>; 4] {
        let [base, home, first, second] = pointers;
        [
            self.walk(base, at, access),
            self.walk(home, at, access),
            self.walk(first, at, access),
            self.walk(second, at, access),
        ]
    }

    fn walk(&mut self, eptp: u64, at: u64, access: Access) -> Option<Result<PhysAddr, EptStop>> {
        if !is_eptp(eptp) || (eptp >> 12) & 0xFF_FFFF_FFFF >= u64::from(self.memory.frames()) {
            return None;
        }
        Some(ept_walk(&mut self.memory, eptp, GuestPhys(at), access))
    }
}

/// Words of the record and scratch page of the first view.
fn record_words(memory: &Memory) -> [Option<u64>; 4] {
    [
        word_at(memory, 0x20_5000),
        word_at(memory, 0x20_5028),
        word_at(memory, 0x20_5030),
        word_at(memory, 0x20_6000),
    ]
}

/// What an address answers by the last entry.
const NOTHING: Result<PhysAddr, EptStop> = Err(EptStop::NotPresent { level: 1 });

const DENIED: Result<PhysAddr, EptStop> = Err(EptStop::Denied { level: 1 });

const BEYOND: Result<PhysAddr, EptStop> = Err(EptStop::NotPresent { level: 2 });

/// Accesses, and what they answer by the base and by the three views of thread 0.
#[rattlefmt::skip]
const VIEWS: [(&str, u64, Access, [Result<PhysAddr, EptStop>; 4]); 14] = [
    ("CR3", 0x1_2008, Access::Read,
        [Ok(PhysAddr(0x1_2008)), Ok(PhysAddr(0x1_2008)), Ok(PhysAddr(0x1_0008)), Ok(PhysAddr(0x1_1008))]),
    ("CR3 written", 0x1_2008, Access::Write, [DENIED; 4]),
    ("another root", 0x1_F000, Access::Read, [Ok(PhysAddr(0x1_F000)); 4]),
    ("trampoline", 0x1040, Access::Fetch,
        [Ok(PhysAddr(0x1040)), Ok(PhysAddr(0x1040)), Ok(PhysAddr(0x4040)), Ok(PhysAddr(0x4040))]),
    ("trampoline read", 0x1040, Access::Read, [DENIED; 4]),
    ("record", 0x2020, Access::Read, [NOTHING, Ok(PhysAddr(0x20_5020)), Ok(PhysAddr(0x20_B020)), Ok(PhysAddr(0x21_1020))]),
    ("record written", 0x2020, Access::Write, [NOTHING, DENIED, DENIED, DENIED]),
    ("scratch", 0x3FFF, Access::Write, [NOTHING, Ok(PhysAddr(0x20_6FFF)), Ok(PhysAddr(0x20_CFFF)), Ok(PhysAddr(0x21_2FFF))]),
    ("scratch fetched", 0x3000, Access::Fetch, [NOTHING, DENIED, DENIED, DENIED]),
    ("exposed before", 0x25_8123, Access::Write, [Ok(PhysAddr(0x25_8123)); 4]),
    ("exposed later", 0x3F_F001, Access::Fetch, [Ok(PhysAddr(0x3F_F001)); 4]),
    ("not exposed", 0x25_9000, Access::Read, [NOTHING; 4]),
    ("a list", 0x20_0000, Access::Read, [NOTHING; 4]),
    ("behind 32 MiB", 0x200_0000, Access::Read, [BEYOND; 4]),
];

#[test]
fn views_differ_in_four_pages(rt: HostRuntime) {
    let mut machine = Machine::new(rt.alloc(), 512).expect(&rt, "memory");
    machine.expose(600, 3);
    assert_same(&rt, "list", &machine.add_list(0), &Some(Ok(())));
    assert_same(&rt, "home", &machine.add_view(0, 18, 18), &Some(Ok(0)));
    assert_same(&rt, "server 16", &machine.add_view(0, 18, 16), &Some(Ok(1)));
    assert_same(&rt, "server 17", &machine.add_view(0, 18, 17), &Some(Ok(2)));
    machine.expose(1023, 4);
    let pointers = machine.pointers();
    for &(shows, at, access, answers) in &VIEWS {
        let found = machine.walks(pointers, at, access);
        let [base, home, first, second] = answers;
        assert_same(
            &rt,
            shows,
            &found,
            &[Some(base), Some(home), Some(first), Some(second)],
        );
    }
    let expected = [Some(0x1122_3344_5566_7788), Some(2), Some(0), Some(0)];
    assert_same(&rt, "records", &record_words(&machine.memory), &expected);
}

#[test]
fn a_cleared_entry_is_used_again(rt: HostRuntime) {
    let mut machine = Machine::new(rt.alloc(), 512).expect(&rt, "memory");
    assert_same(&rt, "list", &machine.add_list(31), &Some(Ok(())));
    assert_same(&rt, "home", &machine.add_view(31, 16, 16), &Some(Ok(0)));
    assert_same(
        &rt,
        "server 17",
        &machine.add_view(31, 16, 17),
        &Some(Ok(1)),
    );
    machine.clear_entry(31, 0);
    assert_same(
        &rt,
        "cleared",
        &machine.switch(31, 0, 0),
        &Some(Ok(Switch::Unbound)),
    );
    assert_same(&rt, "free", &machine.book.free(), &499);
    assert_same(
        &rt,
        "server 18",
        &machine.add_view(31, 16, 18),
        &Some(Ok(0)),
    );
    assert_same(&rt, "free", &machine.book.free(), &493);
    let pointer = machine.pointer(31, 0);
    let found = machine.walk(pointer, 0x1_0000, Access::Read);
    assert_same(&rt, "its view", &found, &Some(Ok(PhysAddr(0x1_2000))));
}

#[test]
fn frames_taken_away_are_reached_no_more(rt: HostRuntime) {
    let mut machine = Machine::new(rt.alloc(), 512).expect(&rt, "memory");
    machine.expose(700, 1);
    let found = machine.walk(BASE, 0x2B_C000, Access::Read);
    assert_same(&rt, "exposed", &found, &Some(Ok(PhysAddr(0x2B_C000))));
    machine.expose(700, 0);
    let found = machine.walk(BASE, 0x2B_C000, Access::Read);
    assert_same(&rt, "taken away", &found, &Some(NOTHING));
}

/// How many frames are free, and what adding a list and a view answers.
type Want = (
    &'static str,
    u32,
    Option<Result<(), NoFrames>>,
    Option<Result<u16, NoFrames>>,
);

#[rattlefmt::skip]
const WANTS: [Want; 4] = [
    ("a list of none", 0, Some(Err(NoFrames { need: 1, have: 0 })), None),
    ("a view of none", 1, Some(Ok(())), Some(Err(NoFrames { need: 6, have: 0 }))),
    ("a view of five", 6, Some(Ok(())), Some(Err(NoFrames { need: 6, have: 5 }))),
    ("a view of six", 7, Some(Ok(())), Some(Ok(0))),
];

#[test]
fn wants_frames(rt: HostRuntime) {
    for (shows, free, list, view) in &WANTS {
        let mut machine = Machine::new(rt.alloc(), *free).expect(&rt, "memory");
        assert_same(&rt, shows, &machine.add_list(3), list);
        assert_same(&rt, shows, &machine.add_view(3, 16, 16), view);
    }
}

/// EAX, ECX, and where a switch of the thread with one view leads.
#[rattlefmt::skip]
const SWITCHES: [(&str, u32, u32, Switch); 6] = [
    ("the home view", 0, 0, Switch::To { eptp: 0x20_101E }),
    ("a zero entry", 0, 1, Switch::Unbound),
    ("the last entry", 0, 511, Switch::Unbound),
    ("behind the list", 0, 512, Switch::Unbound),
    ("another leaf", 1, 0, Switch::BadLeaf),
    ("another leaf behind the list", 1, 512, Switch::BadLeaf),
];

#[test]
fn switches_by_the_list(rt: HostRuntime) {
    let mut machine = Machine::new(rt.alloc(), 512).expect(&rt, "memory");
    assert_same(&rt, "list", &machine.add_list(0), &Some(Ok(())));
    assert_same(&rt, "home", &machine.add_view(0, 16, 16), &Some(Ok(0)));
    for &(shows, eax, ecx, answer) in &SWITCHES {
        assert_same(&rt, shows, &machine.switch(0, eax, ecx), &Some(Ok(answer)));
    }
}

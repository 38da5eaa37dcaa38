//! A Subkernel over memory.

ghost use Rattle.std.specs.Prelude.{◌≡◌, ◌+◌, ◌-◌, ◌*◌, ◌<◌, ◌≤◌, Some, IfOk, IfSome, IsTrue, length};
ghost use Rattle.sb_abi.specs.declared.frames.TheConstants.{KEPT_FRAMES};
ghost use Rattle.sb_abi.specs.declared.layout.TheConstants.{FIRST_ROOT};
ghost use Rattle.sb_memory.specs.declared.page.TheConstants.{PAGE_SIZE};
ghost use Rattle.sb_frames.specs.Book.{free_count};
ghost use Rattle.sb_root.specs.Root.{IsSet, eptp_list_frame, no_threads};
ghost use Rattle.sb_root.specs.Standing.{IsBooked, Stands};
ghost use Rattle.sb_load.specs.Need.{have_of};
ghost use Rattle.sb_memory.specs.Physical.{frame_count};
ghost use Rattle.sb_walks.specs.Entry.{frame_in};
ghost use Rattle.sb_walks.specs.Ept.{is_eptp};
ghost use Rattle.sb_trace.specs.State.{State};
ghost use Rattle.sb_sub.specs.Kernel.{shown_in};
ghost use Rattle.sb_sub.specs.StandsFor.{StandsFor};

use sb_abi::FIRST_ROOT;
use sb_bus::{Bus, BusStop};
use sb_frames::FrameBook;
use sb_insn::Regs;
use sb_load::Loaded;
use sb_memory::{Access, Frame, Linear, Memory, PAGE_SIZE, Phys};
use sb_nested::{NestedBus, translate};
use sb_root::{RootKernel, Switch, switch};
use sb_sub::{Answer, SubKernel};
use sb_walks::is_eptp;
use std::alloc::{AllocError, Global};
use std::marker::Model;
use std::test::Fail;

/// Memory of so many frames. Contracts do not see its bytes, so that no proof lists them.
fn some_memory(alloc: Global, frames: u32) -> Result<Memory, AllocError>
    ensures { IfOk result (λ memory. frame_count memory ≡ frames) }
{
    Memory::new(alloc, frames)
}

/// A view of a thread, by its index.
#[derive(Clone, Copy, Debug)]
pub struct View {
    pub thread: u8,
    pub index: u16,
}

/// The words through which a thread sees memory: an EPT pointer, and CR3.
#[derive(Clone, Copy)]
pub struct Words {
    eptp: u64,
    cr3: u64,
}

/// The book of a memory of so many frames.
fn some_book(alloc: Global, frames: u32) -> Result<FrameBook, AllocError>
    requires { KEPT_FRAMES ≤ frames }
    ensures length { IfOk result (λ book. length book + KEPT_FRAMES ≡ frames) }
    ensures free { IfOk result (λ book. free_count book ≡ frames - KEPT_FRAMES) }
{
    FrameBook::new(alloc, frames)
}

/// A Subkernel at the start of a loaded bundle's run. It stands for some state, and has a seat for each core.
#[tactic(auto, using(crate::proofs::Standing::seats_at_start))]
fn started(
    alloc: Global,
    loaded: &Loaded,
    memory: &mut Memory,
    book: &mut FrameBook,
    root: &mut RootKernel,
) -> Result<SubKernel, AllocError>
    requires root { root.old ≡ no_threads }
    requires stands { Stands root.old memory.old }
    requires booked { IsBooked root.old book.old memory.old }
    requires free { free_count book.old ≡ have_of loaded.now.bundle }
    ensures stands { IfOk result (λ kernel. (state : State) × StandsFor kernel root.new book.new memory.new state) }
    ensures seats { IfOk result (λ kernel. length kernel.seats ≡ length loaded.now.bundle.cores) }
{
    SubKernel::new(alloc, loaded, memory, book, root)
}

/// A system call in a view, with the registers behind SYSCALL. Afterwards the Subkernel stands for some state, and has as many
/// seats.
fn serve(
    kernel: &mut SubKernel,
    memory: &mut Memory,
    book: &mut FrameBook,
    root: &mut RootKernel,
    view: View,
    regs: &mut Regs,
) -> Answer
    requires stands { (state : State) × StandsFor kernel.old root.old book.old memory.old state }
    requires thread { view.thread < length kernel.old.seats }
    ensures stands { (state : State) × StandsFor kernel.new root.new book.new memory.new state }
    ensures seats { length kernel.new.seats ≡ length kernel.old.seats }
{
    kernel.serve(memory, book, root, view.thread, view.index, regs)
}

/// A Subkernel with its root kernel, its frame book and memory, and how many threads it serves.
#[derive(Drop)]
pub struct Nested {
    memory: Memory,
    book: FrameBook,
    root: RootKernel,
    kernel: SubKernel,
    threads: u8,
}

impl Model for Nested {
    ghost use Rattle.sb_sub_tests.specs.Nested.{IsServing, Nested};

    ghost Value = { Nested };

    ghost view = { λ nested. record {
      kernel = nested.kernel;
      root = nested.root;
      book = nested.book;
      memory = nested.memory;
      threads = nested.threads;
    } };

    ghost invariant = { λ nested. IsServing (record {
      kernel = nested.kernel;
      root = nested.root;
      book = nested.book;
      memory = nested.memory;
      threads = nested.threads;
    }) };
}

impl Nested {
    /// The Subkernel at the start of a loaded bundle's run.
    pub fn new(alloc: Global, loaded: &Loaded) -> Result<Nested, Fail> {
        let frames = loaded.bundle().frames;
        let threads = u8::try_from(loaded.bundle().cores.items().len())?;
        let mut memory = some_memory(alloc, frames)?;
        let mut book = some_book(alloc, frames)?;
        let mut root = RootKernel::new(&mut memory);
        let kernel = started(alloc, loaded, &mut memory, &mut book, &mut root)?;
        Ok(Nested {
            memory,
            book,
            root,
            kernel,
            threads,
        })
    }

    /// How many threads it serves.
    pub fn threads(&self) -> u8 {
        self.threads
    }

    /// The number of free frames, and that of the key words that are left.
    pub fn left(&self) -> (u32, u32) {
        (self.book.free(), self.kernel.keys_left())
    }

    /// The process that a view shows, if there is such a thread.
    pub fn shown(&self, view: View) -> Option<u32> {
        if view.thread < self.threads {
            Some(self.kernel.shown(view.thread, view.index))
        } else {
            None
        }
    }

    /// A system call in a view, with the registers behind SYSCALL, if there is such a thread.
    pub fn serve(&mut self, view: View, regs: &mut Regs) -> Option<Answer> {
        if view.thread >= self.threads {
            return None;
        }
        Some(serve(
            &mut self.kernel,
            &mut self.memory,
            &mut self.book,
            &mut self.root,
            view,
            regs,
        ))
    }

    /// The frame of a thread's list.
    fn list(&self, thread: u8) -> Option<Frame>
        ensures { IfSome result (λ frame. eptp_list_frame self.now.root thread ≡ Some frame) }
    {
        if thread < 32 && self.root.has_list(thread) {
            Some(self.root.list_frame(thread))
        } else {
            None
        }
    }

    /// CR3 of a thread.
    fn cr3(&self, thread: u8) -> u64
        requires { thread < length self.now.kernel.seats }
        ensures { result ≡ PAGE_SIZE * (FIRST_ROOT + shown_in self.now.kernel thread 0) }
    {
        PAGE_SIZE * (u64::from(FIRST_ROOT) + u64::from(self.kernel.shown(thread, 0)))
    }

    /// The EPT pointer of a view, as VMFUNC takes it from the thread's list.
    fn pointer(&mut self, view: View) -> Option<u64> {
        let list = self.list(view.thread)?;
        if list.0 >= self.memory.frames() {
            return None;
        }
        match switch(&mut self.memory, list, 0, u32::from(view.index)) {
            Ok(Switch::To { eptp }) => Some(eptp),
            _ => None,
        }
    }

    /// The words through which a view is seen, if it is in the thread's list.
    pub fn words(&mut self, view: View) -> Option<Words> {
        if view.thread >= self.threads {
            return None;
        }
        let cr3 = self.cr3(view.thread);
        let eptp = self.pointer(view)?;
        Some(Words { eptp, cr3 })
    }

    /// Whether an EPT pointer is one, and its table is in memory.
    fn is_pointer(&self, eptp: u64) -> bool
        ensures eptp { IsTrue result → IsTrue (is_eptp eptp) }
        ensures root { IsTrue result → frame_in eptp < frame_count self.now.memory }
    {
        is_eptp(eptp) && (eptp >> 12) & 0xFF_FFFF_FFFF < u64::from(self.memory.frames())
    }

    /// The bytes of the page to which an access at its start leads.
    pub fn page(&mut self, words: Words, at: Linear, access: Access) -> Option<&[u8]> {
        if !self.is_pointer(words.eptp) {
            return None;
        }
        let place = translate(&mut self.memory, words.eptp, words.cr3, at, access).ok()?;
        self.memory.bytes().get(place.0 as usize..)?.get(..4096)
    }

    /// Whether a thread has a list in memory and a view of this index.
    fn has_view(&self, view: View, list: Frame) -> bool
        ensures thread { IsTrue result → view.thread < length self.now.kernel.seats }
        ensures set { IsTrue result → IsSet self.now.root view.thread view.index }
        ensures index { IsTrue result → view.index < 16 }
        ensures list { IsTrue result → list.0 < frame_count self.now.memory }
    {
        view.thread < self.threads
            && view.thread < 32
            && view.index < 16
            && list.0 < self.memory.frames()
            && self.root.is_set(view.thread, view.index)
    }

    /// Puts a word where an instruction in a view would store it.
    pub fn store(&mut self, view: View, at: Linear, word: u64) -> Option<Result<(), BusStop>> {
        let list = self.list(view.thread)?;
        if !self.has_view(view, list) {
            return None;
        }
        let eptp = self.memory.word(list.word(u64::from(view.index)));
        let cr3 = self.cr3(view.thread);
        if !self.is_pointer(eptp) {
            return None;
        }
        Some(NestedBus::new(&mut self.memory, eptp, cr3).store(at, 8, word))
    }
}

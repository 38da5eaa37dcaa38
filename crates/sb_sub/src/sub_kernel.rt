//! The Subkernel.

ghost use Rattle.std.specs.Prelude.{◌≡◌, ◌≢◌, ◌+◌, ◌*◌, ◌<◌, ◌≤◌, IfSome, None, Some, length, nat_lt, slice_get};
ghost use Rattle.sb_abi.specs.declared.space.TheConstants.{MAX_STACKS, STACK_PAGES};
ghost use Rattle.sb_abi.specs.Numbers.{call_number};
ghost use Rattle.sb_abi.specs.declared.call.Call.TheVariants.{Register, Bind, Protect};
ghost use Rattle.sb_memory.specs.Physical.{frame_count};
ghost use Rattle.sb_trace.specs.State.{State, registration_of};
ghost use Rattle.sb_trace.specs.Registers.{rax, rdi};
ghost use Rattle.sb_trace.specs.Syscall.{syscall_outcome};
ghost use Rattle.sb_trace.specs.Marks.{map_in};
ghost use Rattle.sb_frames.specs.Book.{Book, free_count};
ghost use Rattle.sb_slots.specs.Marks.{mark};
ghost use Rattle.sb_sub.specs.Kernel.{seat_in, shown_in};
ghost use Rattle.sb_sub.specs.StandsFor.{StandsFor};
ghost use Rattle.sb_sub.specs.Serving.{IsRefused, KeepsLists, ServesBy, exit_answer, exit_regs};
ghost use Rattle.sb_sub.specs.Outcomes.{ProtectsBy, RegistersBy};
ghost use Rattle.sb_sub.specs.Refusals.{answer_by, number_by, process_in, server_refusal};
ghost use Rattle.sb_sub.specs.Registering.{RegistersPages, with_server_entry};
ghost use Rattle.sb_sub.specs.Translations.{PlacesStay};

use crate::answer::Answer;
use crate::process::Process;
use crate::protect::protect;
use crate::register::register_pages;
use crate::registers::{entered, go_on, tell_binding};
use sb_abi::{Call, CallRefusal};
use sb_calls::{register_refusal, server_fault_regs};
use sb_frames::FrameBook;
use sb_insn::Regs;
use sb_insn::registers::{RAX, RDI, RSI};
use sb_memory::Memory;
use sb_root::RootKernel;
use sb_slots::Mark;
use sb_state::Registration;
use sb_trace::{Bindings, mark_without_text};
use sb_tramp::KeyWords;
use std::marker::Model;

/// What the Subkernel keeps of a thread.
#[derive(Debug, Drop)]
pub struct Seat {
    pub(crate) home: u32,
    pub(crate) bindings: Bindings,
}

impl Model for Seat {
    ghost use Rattle.sb_sub.specs.Kernel.{Seat};

    ghost Value = { Seat };

    ghost view = { λ seat. record { home = seat.home; bindings = seat.bindings } };
}

/// The processes, the homes and bindings of the threads, and the key words that are left.
#[derive(Drop)]
pub struct SubKernel {
    pub(crate) processes: Vec<Process>,
    pub(crate) seats: Vec<Seat>,
    pub(crate) keys: KeyWords,
}

impl Model for SubKernel {
    ghost use Rattle.sb_sub.specs.Kernel.{Kernel};

    ghost Value = { Kernel };

    ghost view = { λ kernel. record { processes = kernel.processes.items; seats = kernel.seats.items; keys = kernel.keys } };
}

// ---- the numbers of calls

const EXIT: u64 = Call::Exit as u64;

const PRINT: u64 = Call::Print as u64;

const REGISTER: u64 = Call::Register as u64;

const BIND: u64 = Call::Bind as u64;

const PROTECT: u64 = Call::Protect as u64;

// ---- calls

/// Exit: at home the thread ends with a status; in a server's view it is sent home.
fn exit(view: u16, regs: &mut Regs) -> Answer
    ensures answer { result ≡ exit_answer view (rdi regs.old) }
    ensures regs { regs.new ≡ exit_regs view regs.old }
{
    let status = regs.general[RDI];
    if view == 0 {
        *regs = entered(regs);
        return Answer::Ended(status);
    }
    *regs = server_fault_regs();
    Answer::GoHome(status)
}

/// The answer of a call and its second value, by its refusal.
fn answer_of(refusal: Option<(CallRefusal, u64)>) -> (u64, u64)
    ensures { result ≡ answer_by refusal }
{
    match refusal {
        Some((refusal, second)) => (refusal.number(), second),
        None => (0, 0),
    }
}

/// The answer of a call that has no second value, by its refusal.
fn number_of(refusal: Option<CallRefusal>) -> u64
    ensures { result ≡ number_by refusal }
{
    match refusal {
        Some(refusal) => refusal.number(),
        None => 0,
    }
}

/// Notes that the process of a number is a server.
fn note_server(processes: &mut [Process], process: u32, handler: u64, stacks: u32)
    requires { process < length processes.old }
    ensures { processes.new
        ≡ with_server_entry (slice_get processes.old process) processes.old process handler stacks }
{
    processes[process as usize].note_server(handler, stacks);
}

impl SubKernel {
    /// The number of key words that are left.
    pub fn keys_left(&self) -> u32
        ensures { result ≡ length self.now.keys }
    {
        self.keys.left()
    }

    /// The process that a view of a thread shows.
    pub fn shown(&self, thread: u8, view: u16) -> u32
        requires { thread < length self.now.seats }
        ensures { result ≡ shown_in self.now thread view }
    {
        let seat = &self.seats[usize::from(thread)];
        if view == 0 {
            return seat.home;
        }
        let binding = seat.bindings.find(u32::from(view));
        binding.map_or(seat.home, |binding| binding.server)
    }

    /// What the step of an instruction at `rip` is to the text of the process that a view of the thread shows, where RIP is `next`
    /// behind it, and `scratch` says whether it accessed the scratch page (docs/MARKS.md).
    pub fn mark(&self, thread: u8, view: u16, rip: u64, next: u64, scratch: bool) -> Mark
        requires { thread < length self.now.seats }
        ensures { result ≡ mark (map_in (process_in self.now (shown_in self.now thread view))) rip next scratch }
    {
        let process = self.shown(thread, view);
        match self.processes.get(process as usize) {
            Some(process) => process.plain.mark(rip, next, scratch),
            None => mark_without_text(rip, next, scratch),
        }
    }

    /// Whether there is a process of this number.
    fn has_process(&self, process: u32) -> bool
        ensures { result ≡ nat_lt process (length self.now.processes) }
    {
        (process as usize) < self.processes.len()
    }

    /// The process of this number.
    pub(crate) fn process(&self, process: u32) -> &Process
        requires { process < length self.now.processes }
        ensures { slice_get self.now.processes process ≡ Some result.now }
    {
        &self.processes[process as usize]
    }

    /// What the process of a number told as a server, if it did.
    pub fn registration(&self, process: u64) -> Option<Registration>
        ensures { result ≡ registration_of (process_in self.now process) }
    {
        let index = process as usize;
        if index < self.processes.len() {
            self.processes[index].plain.registration
        } else {
            None
        }
    }

    /// What is kept of a thread.
    pub(crate) fn seat(&self, thread: u8) -> &Seat
        requires { thread < length self.now.seats }
        ensures { result.now ≡ seat_in self.now thread }
    {
        &self.seats[usize::from(thread)]
    }

    /// The home of a thread.
    pub(crate) fn home(&self, thread: u8) -> u32
        requires { thread < length self.now.seats }
        ensures { result ≡ (seat_in self.now thread).home }
    {
        self.seat(thread).home
    }

    /// Why the process of a number does not become a server, where so many frames are free.
    #[tactic(auto, unfolding(sb_calls::specs::Refusals::register_refusal))]
    fn refusal_of_register(
        &self,
        free: u32,
        view: u16,
        process: u32,
        handler: u64,
        stacks: u64,
    ) -> Option<CallRefusal>
        ensures refusal { result ≡ server_refusal self.now free view process handler stacks }
        ensures stacks { result ≡ None → stacks ≤ MAX_STACKS }
        ensures frames { result ≡ None → STACK_PAGES * stacks ≤ free }
        ensures there { result ≡ None → process < length self.now.processes }
    {
        if self.has_process(process) {
            let plain = &self.process(process).plain;
            let registered = plain.registration.is_some();
            register_refusal(view, registered, plain.is_start(handler), stacks, free)
        } else {
            register_refusal(view, false, false, stacks, free)
        }
    }

    /// The pages of so many stacks are there, and the process is a server.
    fn make_server(
        &mut self,
        memory: &mut Memory,
        book: &mut FrameBook,
        root: &mut RootKernel,
        process: u32,
        handler: u64,
        stacks: u32,
    )
        requires stands { (state : State) × StandsFor self.old root.old book.old memory.old state }
        requires there { process < length self.old.processes }
        requires few { stacks ≤ MAX_STACKS }
        requires some { STACK_PAGES * stacks ≤ free_count book.old }
        ensures root { root.new ≡ root.old }
        ensures pages { IfSome (slice_get self.old.processes process)
            (λ entry. RegistersPages entry.set root.old book.old book.new memory.old memory.new process stacks) }
        ensures frames { frame_count memory.new ≡ frame_count memory.old }
        ensures fewer { free_count book.new + STACK_PAGES * stacks ≡ free_count book.old }
        ensures noted { self.new ≡ record self.old {
          processes = with_server_entry (slice_get self.old.processes process) self.old.processes process handler stacks;
        } }
    {
        let set = &self.process(process).set;
        register_pages(set, memory, book, root, process, stacks);
        note_server(&mut self.processes, process, handler, stacks);
    }

    /// Call 2: the process that the view shows becomes a server.
    fn register(
        &mut self,
        memory: &mut Memory,
        book: &mut FrameBook,
        root: &mut RootKernel,
        view: u16,
        process: u32,
        handler: u64,
        stacks: u64,
    ) -> Option<CallRefusal>
        requires stands { (state : State) × StandsFor self.old root.old book.old memory.old state }
        ensures root { root.new ≡ root.old }
        ensures seats { self.new.seats ≡ self.old.seats }
        ensures refused { IfSome result (λ _. (self.new ≡ self.old) × (book.new ≡ book.old) × (memory.new ≡ memory.old)) }
        ensures frames { frame_count memory.new ≡ frame_count memory.old }
        ensures places { PlacesStay self.old root.old book.old memory.old memory.new }
        ensures served { (state : State) → StandsFor self.old root.old book.old memory.old state
            → RegistersBy self.new root.old book.new memory.new state view process handler stacks result }
    {
        if let Some(refusal) = self.refusal_of_register(
            book.free(),
            view,
            process,
            handler,
            stacks,
        ) {
            return Some(refusal);
        }
        self.make_server(memory, book, root, process, handler, stacks as u32);
        None
    }

    /// Call 4: a heap page of the process that the view shows gets a mode.
    fn protect_page(
        &self,
        memory: &mut Memory,
        root: &mut RootKernel,
        process: u32,
        page: u64,
        mode: u64,
    ) -> Option<(CallRefusal, u64)>
        requires stands { (book : Book) × (state : State) × StandsFor self.now root.old book memory.old state }
        ensures root { root.new ≡ root.old }
        ensures refused { IfSome result (λ _. memory.new ≡ memory.old) }
        ensures served { (book : Book) (state : State) → StandsFor self.now root.old book memory.old state
            → ProtectsBy self.now root.old book memory.new state process page mode result }
    {
        if self.has_process(process) {
            protect(self.process(process), memory, root, page, mode)
        } else {
            Some((CallRefusal::BadPage, 0))
        }
    }

    /// A system call of a thread in its present view, with the registers behind SYSCALL. What a refused call leaves differs in
    /// registers alone, so every translation is as it was. After a call with another number than protect each address
    /// that led to a place leads there; and exit, print and a number that is no call leave memory as it was. No frame of memory
    /// comes or goes.
    pub fn serve(
        &mut self,
        memory: &mut Memory,
        book: &mut FrameBook,
        root: &mut RootKernel,
        thread: u8,
        view: u16,
        regs: &mut Regs,
    ) -> Answer
        requires stands { (state : State) × StandsFor self.old root.old book.old memory.old state }
        requires thread { thread < length self.old.seats }
        ensures served { ServesBy syscall_outcome self.old root.old book.old memory.old self.new root.new book.new memory.new
            thread view result regs.old regs.new }
        ensures refused { IsRefused result
            → (self.new ≡ self.old) × (root.new ≡ root.old) × (book.new ≡ book.old) × (memory.new ≡ memory.old) }
        ensures memory { rax regs.old ≢ call_number Protect → rax regs.old ≢ call_number Register
            → rax regs.old ≢ call_number Bind → memory.new ≡ memory.old }
        ensures lists { KeepsLists root.old root.new }
        ensures frames { frame_count memory.new ≡ frame_count memory.old }
        ensures places { rax regs.old ≢ call_number Protect
            → PlacesStay self.old root.old book.old memory.old memory.new }
    {
        let number = regs.general[RAX];
        match number {
            EXIT => exit(view, regs),
            PRINT => {
                let value = regs.general[RDI];
                go_on(regs, 0, 0);
                Answer::Printed(value)
            }
            REGISTER => {
                let process = self.shown(thread, view);
                let (handler, stacks) = (regs.general[RDI], regs.general[RSI]);
                let refusal = self.register(memory, book, root, view, process, handler, stacks);
                let answer = number_of(refusal);
                go_on(regs, answer, 0);
                Answer::Back { number, answer }
            }
            BIND => {
                let server = regs.general[RDI];
                let bound = self.bind(memory, book, root, thread, view, server);
                let answer = tell_binding(regs, thread, bound);
                Answer::Back { number, answer }
            }
            PROTECT => {
                let process = self.shown(thread, view);
                let (page, mode) = (regs.general[RDI], regs.general[RSI]);
                let refusal = self.protect_page(memory, root, process, page, mode);
                let (answer, second) = answer_of(refusal);
                go_on(regs, answer, second);
                Answer::Back { number, answer }
            }
            _ => {
                let answer = CallRefusal::NoCall.number();
                go_on(regs, answer, 0);
                Answer::Back { number, answer }
            }
        }
    }
}

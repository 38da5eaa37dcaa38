//! System call 3: a thread gets a view of a server.

ghost use Rattle.std.specs.Prelude.{ℕ, ◌≡◌, ◌≢◌, ◌+◌, ◌<◌, ◌≤◌, List, IfErr, drop, length, slice_set};
ghost use Rattle.sb_abi.specs.declared.frames.TheConstants.{BIND_FRAMES};
ghost use Rattle.sb_abi.specs.declared.space.TheConstants.{BUFFER_PAGES, MAX_BINDINGS, MAX_THREADS, MAX_VIEWS};
ghost use Rattle.sb_memory.specs.Physical.{frame_count};
ghost use Rattle.sb_frames.specs.Book.{free_count};
ghost use Rattle.sb_pagewalk.specs.Windows.{IsInWindow};
ghost use Rattle.sb_trace.specs.KernelCall.{handler_in};
ghost use Rattle.sb_trace.specs.State.{State, registration_of, thread_at};
ghost use Rattle.sb_trace.specs.SyscallBind.{first_key};
ghost use Rattle.sb_sub.specs.Binding.{AddsServerView, BindsBy, binding_refusal, kernel_with, record_of_server, seat_with};
ghost use Rattle.sb_sub.specs.Kernel.{seat_among, seat_in};
ghost use Rattle.sb_sub.specs.Refusals.{process_in};
ghost use Rattle.sb_sub.specs.Serving.{KeepsLists};
ghost use Rattle.sb_sub.specs.Sharing.{CanShare, SharesBuffer, SharesPage, buffer_page_at};
ghost use Rattle.sb_sub.specs.StandsFor.{StandsFor};
ghost use Rattle.sb_sub.specs.Translations.{PlacesStay};

use crate::sub_kernel::{Seat, SubKernel};
use sb_abi::{BUFFER_PAGES, CallRefusal};
use sb_calls::{bind_refusal, buffer_address, server_record};
use sb_frames::{FrameBook, Kind};
use sb_mapping::{fill, page_entry};
use sb_memory::{Linear, Memory, PAGE_SIZE};
use sb_pagewalk::TableSet;
use sb_root::{RIGHT_READ_WRITE, RootKernel};
use sb_state::{Binding, Mode};
use sb_tramp::RecordWords;

// ---- the buffer

/// The pages of a buffer.
const BUFFER: u32 = BUFFER_PAGES as u32;

/// Adds a writable page of zeros, at one address, to the tables of a client's home and of a server.
fn share_page(
    home: &TableSet,
    server: &TableSet,
    memory: &mut Memory,
    book: &mut FrameBook,
    root: &mut RootKernel,
    owner: u32,
    at: Linear,
)
    requires window { IsInWindow at.0 }
    requires some { 0 < free_count book.old }
    requires can { CanShare home.now server.now root.old book.old memory.old }
    ensures root { root.new ≡ root.old }
    ensures shared { SharesPage home.now server.now root.old book.old book.new memory.old memory.new owner at.0 }
    ensures can { CanShare home.now server.now root.new book.new memory.new }
{
    let frame = book.take_free(Kind::Writable, owner);
    let entry = page_entry(frame.0, Mode::ReadWrite);
    fill(memory, frame, 0);
    home.set_page(memory, at, entry);
    server.set_page(memory, at, entry);
    root.expose(memory, frame, RIGHT_READ_WRITE);
}

/// The linear address of a page of the buffer of a view.
fn buffer_page_at(thread: u8, index: u16, page: u32) -> Linear
    ensures { result.0 ≡ buffer_page_at thread index page }
{
    Linear(buffer_address(thread, index) + PAGE_SIZE * u64::from(page))
}

/// Adds the buffer of a view of a thread to the tables of the thread's home and of the server. Its frames are owned by a process.
pub fn share_buffer(
    home: &TableSet,
    server: &TableSet,
    memory: &mut Memory,
    book: &mut FrameBook,
    root: &mut RootKernel,
    owner: u32,
    thread: u8,
    index: u16,
)
    requires served { thread < MAX_THREADS }
    requires few { index < MAX_VIEWS }
    requires some { BUFFER_PAGES ≤ free_count book.old }
    requires can { CanShare home.now server.now root.old book.old memory.old }
    ensures root { root.new ≡ root.old }
    ensures shared { SharesBuffer home.now server.now root.old book.old book.new memory.old memory.new owner thread index 0
        BUFFER_PAGES }
    ensures fewer { free_count book.new + BUFFER_PAGES ≡ free_count book.old }
    ensures can { CanShare home.now server.now root.new book.new memory.new }
{
    for page in 0..BUFFER {
        share_page(
            home,
            server,
            memory,
            book,
            root,
            owner,
            buffer_page_at(thread, index, page),
        );
    }
}

// ---- the binding

impl Seat {
    /// The thread has one binding more.
    fn push_binding(&mut self, binding: Binding)
        requires { length self.old.bindings < MAX_BINDINGS }
        ensures { self.new ≡ seat_with self.old binding }
    {
        self.bindings.push(binding);
    }
}

/// Notes that a thread has one binding more.
fn note_binding(seats: &mut [Seat], thread: u8, binding: Binding)
    requires there { thread < length seats.old }
    requires room { length (seat_among seats.old thread).bindings < MAX_BINDINGS }
    ensures { seats.new ≡ slice_set seats.old thread (seat_with (seat_among seats.old thread) binding) }
{
    seats[usize::from(thread)].push_binding(binding);
}

impl SubKernel {
    /// The handler of a server.
    fn handler(&self, server: u32) -> u64
        ensures { result ≡ handler_in (registration_of (process_in self.now server)) }
    {
        match self.registration(u64::from(server)) {
            Some(registration) => registration.handler,
            None => 0,
        }
    }

    /// The number of bindings of a thread.
    fn binding_count(&self, thread: u8) -> usize
        requires { thread < length self.now.seats }
        ensures { result ≡ length (seat_in self.now thread).bindings }
    {
        self.seat(thread).bindings.items().len()
    }

    /// Why a thread in a view does not get a view of a process, where so many frames are free.
    fn refusal_of_bind(&self, free: u32, thread: u8, view: u16, server: u64) -> Option<CallRefusal>
        requires { thread < length self.now.seats }
        ensures { result ≡ binding_refusal self.now free thread view server }
    {
        bind_refusal(
            view,
            self.home(thread),
            server,
            self.registration(server).is_some(),
            self.binding_count(thread),
            self.keys_left(),
            free,
        )
    }

    /// Adds a view of a server with a record page of these words to the list of a thread, and its buffer to both processes, and
    /// gives the index of the view.
    fn add_server_view(
        &self,
        memory: &mut Memory,
        book: &mut FrameBook,
        root: &mut RootKernel,
        thread: u8,
        server: u32,
        words: &RecordWords,
    ) -> u16
        requires stands { (keys : List ℕ) × (state : State)
            × StandsFor (record self.now { keys = keys }) root.old book.old memory.old state }
        requires thread { thread < length self.now.seats }
        requires there { server < length self.now.processes }
        requires away { server ≢ (seat_in self.now thread).home }
        requires room { length (seat_in self.now thread).bindings < MAX_BINDINGS }
        requires frames { BIND_FRAMES ≤ free_count book.old }
        ensures added { AddsServerView self.now.processes root.old root.new book.old book.new memory.old memory.new thread
            (seat_in self.now thread).home server words.now result }
        ensures fewer { free_count book.new + BIND_FRAMES ≡ free_count book.old }
    {
        let home = self.home(thread);
        let client = self.process(home).tables();
        let target = self.process(server).tables();
        let index = match root.add_view(
            memory,
            book,
            thread,
            client.root,
            target.root,
            words,
            true,
        ) {
            Ok(index) => index,
            Err(_) => unreachable!(),
        };
        share_buffer(client, target, memory, book, root, home, thread, index);
        index
    }

    /// The next key word, which is there.
    fn draw_key(&mut self) -> u64
        ensures key { result ≡ first_key self.old.keys }
        ensures left { self.new ≡ record self.old { keys = drop 1 self.old.keys } }
    {
        self.keys.draw().unwrap_or(0)
    }

    /// The thread has a view of a server more, with its pages and a key of its own.
    fn make_binding(
        &mut self,
        memory: &mut Memory,
        book: &mut FrameBook,
        root: &mut RootKernel,
        thread: u8,
        server: u32,
    ) -> Binding
        requires stands { (state : State) × StandsFor self.old root.old book.old memory.old state }
        requires thread { thread < length self.old.seats }
        requires there { server < length self.old.processes }
        requires away { server ≢ (seat_in self.old thread).home }
        requires room { length (seat_in self.old thread).bindings < MAX_BINDINGS }
        requires frames { BIND_FRAMES ≤ free_count book.old }
        ensures server { result.server ≡ server }
        ensures key { result.key ≡ first_key self.old.keys }
        ensures added { AddsServerView self.old.processes root.old root.new book.old book.new memory.old memory.new thread
            (seat_in self.old thread).home server (record_of_server self.old thread server (first_key self.old.keys))
            result.index }
        ensures fewer { free_count book.new + BIND_FRAMES ≡ free_count book.old }
        ensures noted { self.new ≡ kernel_with self.old thread result }
    {
        let handler = self.handler(server);
        let key = self.draw_key();
        let words = server_record(thread, self.home(thread), key, handler);
        let index = self.add_server_view(memory, book, root, thread, server, &words);
        let binding = Binding { index, server, key };
        note_binding(&mut self.seats, thread, binding);
        binding
    }

    /// Call 3: the thread gets a view of a server, and a binding that tells of it.
    pub(crate) fn bind(
        &mut self,
        memory: &mut Memory,
        book: &mut FrameBook,
        root: &mut RootKernel,
        thread: u8,
        view: u16,
        server: u64,
    ) -> Result<Binding, CallRefusal>
        requires stands { (state : State) × StandsFor self.old root.old book.old memory.old state }
        requires thread { thread < length self.old.seats }
        ensures seats { length self.new.seats ≡ length self.old.seats }
        ensures refused { IfErr result (λ _. (self.new ≡ self.old) × (root.new ≡ root.old) × (book.new ≡ book.old)
            × (memory.new ≡ memory.old)) }
        ensures lists { KeepsLists root.old root.new }
        ensures frames { frame_count memory.new ≡ frame_count memory.old }
        ensures places { PlacesStay self.old root.old book.old memory.old memory.new }
        ensures served { (state : State) → StandsFor self.old root.old book.old memory.old state
            → (thread_at state thread).view ≡ view
            → BindsBy self.new root.new book.new memory.new state thread server result }
    {
        if let Some(refusal) = self.refusal_of_bind(book.free(), thread, view, server) {
            return Err(refusal);
        }
        Ok(self.make_binding(memory, book, root, thread, server as u32))
    }
}

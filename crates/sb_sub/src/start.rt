//! A Subkernel at the start of a loaded bundle.

ghost use Rattle.std.specs.Prelude.{ℕ, ◌≡◌, ◌-◌, ◌*◌, ◌+◌, ◌<◌, ◌≤◌, [], ◌∷◌, IfErr, IfOk, length, map};
ghost use Rattle.sb_abi.specs.declared.frames.TheConstants.{KEPT_FRAMES, THREAD_FRAMES};
ghost use Rattle.sb_abi.specs.declared.layout.TheConstants.{HOME_TRAMPOLINE_FRAME, SERVER_TRAMPOLINE_FRAME};
ghost use Rattle.sb_memory.specs.Physical.{HasSize, HoldsBytes, frame_count};
ghost use Rattle.sb_memory.specs.Changes.{SameOutside};
ghost use Rattle.sb_memory.specs.declared.page.TheConstants.{PAGE_SIZE};
ghost use Rattle.sb_frames.specs.Book.{free_count};
ghost use Rattle.sb_root.specs.Root.{no_threads};
ghost use Rattle.sb_root.specs.Standing.{IsBooked, Stands};
ghost use Rattle.sb_state.specs.Start.{start_process};
ghost use Rattle.sb_tramp.specs.Home.{home_page};
ghost use Rattle.sb_tramp.specs.Server.{server_page};
ghost use Rattle.sb_load.specs.FirstState.{first_state, image_of, images_loaded};
ghost use Rattle.sb_load.specs.Loading.{IsLoadable};
ghost use Rattle.sb_load.specs.Need.{have_of, need_of};
ghost use Rattle.sb_shows.specs.Fills.{FillsFrame};
ghost use Rattle.sb_mapping.specs.StartThreads.{HasNoViews};
ghost use Rattle.sb_sub.specs.Kernel.{process_of};
ghost use Rattle.sb_sub.specs.StandsFor.{StandsFor};
ghost use Rattle.sb_sub.specs.Start.{HasAllProcesses, HasBegun, HasStarted, images_need, start_seat, with_set};

use crate::process::Process;
use crate::sub_kernel::{Seat, SubKernel};
use sb_bundle::{CoreStart, Image};
use sb_frames::FrameBook;
use sb_load::Loaded;
use sb_mapping::{add_process, add_thread, put_trampolines};
use sb_memory::{Frame, Memory};
use sb_pagewalk::TableSet;
use sb_rewrite::Rewritten;
use sb_root::RootKernel;
use sb_trace::Bindings;
use sb_tramp::KeyWords;
use std::alloc::{AllocError, Global};

// ---- what is kept

/// A process that is no server yet, and as yet without tables.
fn bare_process(alloc: Global, image: &Image, made: &Rewritten) -> Result<Process, AllocError>
    ensures { IfOk result (λ process. process.process ≡ start_process (image_of image.now made.now)) }
{
    Ok(Process {
        plain: sb_state::Process::new(made.map().copied(alloc)?, image.heap_pages),
        set: TableSet {
            root: Frame(0),
            tables: [Frame(0); 11],
        },
    })
}

/// The processes by their numbers, as yet without tables.
fn bare_processes(alloc: Global, loaded: &Loaded) -> Result<Vec<Process>, AllocError>
    ensures processes { IfOk result (λ processes. map process_of processes.items ≡ map start_process (images_loaded loaded.now)) }
    ensures count { IfOk result (λ processes. length processes.items ≡ length loaded.now.bundle.images) }
{
    let mut processes = Vec::new(alloc);
    for (number, image) in loaded.bundle().images.items().iter().enumerate() {
        let made = loaded.rewritten(number as u32);
        processes.push(bare_process(alloc, image, made)?)?;
    }
    Ok(processes)
}

/// The homes of the threads, one for each core. No thread has a binding.
fn start_seats(alloc: Global, cores: &[CoreStart]) -> Result<Vec<Seat>, AllocError>
    ensures { IfOk result (λ seats. seats.items ≡ map start_seat cores.now) }
{
    let mut seats = Vec::new(alloc);
    for core in cores {
        seats.push(Seat {
            home: core.process,
            bindings: Bindings::new(),
        })?;
    }
    Ok(seats)
}

/// All that is kept, as yet without tables.
fn bare_kernel(alloc: Global, loaded: &Loaded) -> Result<SubKernel, AllocError>
    ensures processes { IfOk result (λ kernel. map process_of kernel.processes ≡ map start_process (images_loaded loaded.now)) }
    ensures count { IfOk result (λ kernel. length kernel.processes ≡ length loaded.now.bundle.images) }
    ensures seats { IfOk result (λ kernel. kernel.seats ≡ map start_seat loaded.now.bundle.cores) }
    ensures keys { IfOk result (λ kernel. kernel.keys ≡ loaded.now.bundle.keys) }
    ensures loadable { ∥ IsLoadable loaded.now ∥₁ }
{
    let bundle = loaded.bundle();
    Ok(SubKernel {
        processes: bare_processes(alloc, loaded)?,
        seats: start_seats(alloc, bundle.cores.items())?,
        keys: KeyWords::new(Vec::from_slice(alloc, bundle.keys.items())?),
    })
}

// ---- what is built

/// Keeps the tables of a process.
fn keep_set(processes: &mut [Process], process: usize, set: TableSet)
    requires { process < length processes.old }
    ensures { processes.new ≡ with_set processes.old process set }
{
    processes[process].put_set(set);
}

/// Builds the processes: their tables and their pages.
fn build_processes(
    processes: &mut [Process],
    loaded: &Loaded,
    memory: &mut Memory,
    book: &mut FrameBook,
    root: &mut RootKernel,
)
    requires count { length processes.old ≡ length loaded.now.bundle.images }
    requires begun { HasBegun root.old book.old memory.old loaded.now }
    requires some { images_need (images_loaded loaded.now) ≤ free_count book.old }
    ensures root { root.new ≡ root.old }
    ensures processes { map process_of processes.new ≡ map process_of processes.old }
    ensures length { length processes.new ≡ length processes.old }
    ensures built { HasAllProcesses root.new book.new memory.new loaded.now processes.new }
    ensures frames { frame_count memory.new ≡ frame_count memory.old }
    ensures fewer { free_count book.new + images_need (images_loaded loaded.now) ≡ free_count book.old }
{
    for (number, image) in loaded.bundle().images.items().iter().enumerate() {
        let process = number as u32;
        let made = loaded.rewritten(process);
        let set = add_process(memory, book, root, process, image, made);
        keep_set(processes, number, set);
    }
}

/// Builds the threads: their lists, home views, save pages and stacks.
fn build_threads(
    processes: &[Process],
    loaded: &Loaded,
    memory: &mut Memory,
    book: &mut FrameBook,
    root: &mut RootKernel,
)
    requires built { HasAllProcesses root.old book.old memory.old loaded.now processes.now }
    requires count { length processes.now ≡ length loaded.now.bundle.images }
    requires none { (thread : ℕ) → HasNoViews root.old thread }
    requires some { THREAD_FRAMES * length loaded.now.bundle.cores ≤ free_count book.old }
    ensures started { HasStarted root.new book.new memory.new loaded.now processes.now }
    ensures frames { frame_count memory.new ≡ frame_count memory.old }
    ensures fewer { free_count book.new + THREAD_FRAMES * length loaded.now.bundle.cores ≡ free_count book.old }
{
    for (thread, core) in loaded.bundle().cores.items().iter().enumerate() {
        let home = &processes[core.process as usize];
        add_thread(&home.set, memory, book, root, thread as u8, core.process);
    }
}

impl SubKernel {
    /// The Subkernel at the start of a loaded bundle's run, over memory in which the root kernel was just built: the images are
    /// placed, and tables, lists and home views are made. What it leaves stands for the start of the plain machine. No frame of
    /// memory comes or goes.
    ///
    /// # Errors
    ///
    /// `AllocError` comes for want of memory alone, and then memory, book and root kernel are as before.
    pub fn new(
        alloc: Global,
        loaded: &Loaded,
        memory: &mut Memory,
        book: &mut FrameBook,
        root: &mut RootKernel,
    ) -> Result<SubKernel, AllocError>
        requires root { root.old ≡ no_threads }
        requires stands { Stands root.old memory.old }
        requires booked { IsBooked root.old book.old memory.old }
        requires free { free_count book.old ≡ have_of loaded.now.bundle }
        ensures stands { IfOk result (λ kernel. StandsFor kernel root.new book.new memory.new (first_state loaded.now)) }
        ensures taken { IfOk result (λ _. free_count book.new
            ≡ have_of loaded.now.bundle - need_of loaded.now.bundle loaded.now.rewritten) }
        ensures frames { frame_count memory.new ≡ frame_count memory.old }
        ensures unchanged { IfErr result (λ _. (memory.new ≡ memory.old) × (book.new ≡ book.old) × (root.new ≡ root.old)) }
    {
        let mut kernel = bare_kernel(alloc, loaded)?;
        put_trampolines(memory);
        build_processes(&mut kernel.processes, loaded, memory, book, root);
        build_threads(&kernel.processes, loaded, memory, book, root);
        Ok(kernel)
    }
}

//! A machine at the start of a loaded bundle.

ghost use Rattle.std.specs.Prelude.{ℕ, ◌≡◌, ◌≢◌, ◌<◌, ◌≤◌, [], IfOk, None, length};
ghost use Rattle.sb_abi.specs.declared.space.TheConstants.{WINDOW_THREADS};
ghost use Rattle.sb_root.specs.Root.{eptp_list_frame};
ghost use Rattle.sb_root.specs.Standing.{Stands};
ghost use Rattle.sb_load.specs.FirstState.{first_state};
ghost use Rattle.sb_machine.specs.Ran.{HasRun};
ghost use Rattle.sb_machine.specs.Start.{first_core, first_cores};

use crate::parts::Parts;
use crate::processor::{Core, CoreState};
use sb_abi::FIRST_ROOT;
use sb_bundle::CoreStart;
use sb_frames::FrameBook;
use sb_load::Loaded;
use sb_memory::{Memory, PAGE_SIZE};
use sb_root::RootKernel;
use sb_state::{EndKind, start_registers};
use sb_sub::SubKernel;
use std::alloc::{AllocError, Global};

/// The core of a thread at its start.
#[tactic(auto, using(crate::proofs::Begun::list_word, crate::proofs::Begun::list_is))]
fn first_core(memory: &Memory, root: &RootKernel, thread: u8, start: &CoreStart) -> Core
    requires thread { thread < WINDOW_THREADS }
    requires list { eptp_list_frame root.now thread ≢ None }
    requires stands { Stands root.now memory.now }
    ensures { result ≡ first_core memory.now root.now thread start.now }
{
    let list = root.list_frame(thread);
    let state = CoreState {
        regs: start_registers(u32::from(thread), start.entry),
        eptp: memory.word(list.word(0)),
        cr3: PAGE_SIZE * (u64::from(FIRST_ROOT) + u64::from(start.process)),
        list,
        view: 0,
        phase: None,
        made: 0,
    };
    Core {
        state,
        end: EndKind::Running,
        origin: None,
    }
}

/// The cores of all threads at their start.
fn first_cores(
    alloc: Global,
    memory: &Memory,
    root: &RootKernel,
    starts: &[CoreStart],
) -> Result<Vec<Core>, AllocError>
    requires few { length starts.now ≤ WINDOW_THREADS }
    requires lists { (thread : ℕ) → thread < length starts.now → eptp_list_frame root.now thread ≢ None }
    requires stands { Stands root.now memory.now }
    ensures { IfOk result (λ cores. cores.items ≡ first_cores memory.now root.now 0 starts.now) }
{
    let mut cores = Vec::new(alloc);
    for (thread, start) in starts.iter().enumerate() {
        cores.push(first_core(memory, root, thread as u8, start))?;
    }
    Ok(cores)
}

/// The parts of a machine at the start of a loaded bundle: memory of its frames, the two kernels, and the cores, none of which
/// has made a line.
///
/// # Errors
///
/// Want of memory alone.
pub fn first_parts(alloc: Global, loaded: &Loaded) -> Result<Parts, AllocError>
    ensures { IfOk result (λ parts. HasRun parts loaded.now [] [] (first_state loaded.now)) }
{
    let bundle = loaded.bundle();
    let mut memory = Memory::new(alloc, bundle.frames)?;
    let mut book = FrameBook::new(alloc, bundle.frames)?;
    let mut root = RootKernel::new(&mut memory);
    let kernel = SubKernel::new(alloc, loaded, &mut memory, &mut book, &mut root)?;
    let cores = first_cores(alloc, &memory, &root, bundle.cores.items())?;
    Ok(Parts {
        memory,
        book,
        root,
        kernel,
        cores,
    })
}

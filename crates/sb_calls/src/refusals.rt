//! Why system calls are refused, in the order of docs/FORMATS.md.

ghost use Rattle.std.specs.Prelude.{◌≡◌, ◌<◌, ◌≤◌, ◌*◌, None, true};
ghost use Rattle.sb_abi.specs.declared.frames.TheConstants.{BIND_FRAMES};
ghost use Rattle.sb_abi.specs.declared.space.TheConstants.{MAX_BINDINGS, MAX_STACKS, STACK_PAGES};
ghost use Rattle.sb_calls.specs.Refusals.{bind_refusal, protect_refusal, register_refusal};

use sb_abi::{BIND_FRAMES, CallRefusal, MAX_BINDINGS, MAX_STACKS, STACK_PAGES};

/// The mode of a heap page that is written.
pub const WRITE_MODE: u64 = 0;

/// The mode of a heap page that is executed.
pub const EXECUTE_MODE: u64 = 1;

/// Why a process does not become a server, in a view of the thread: whether it is one already, whether an instruction of its
/// text starts at the handler, how many stacks are asked for, and how many frames are free.
#[tactic(auto, unfolding(crate::specs::Refusals::register_refusal))]
pub fn register_refusal(
    view: u16,
    registered: bool,
    start: bool,
    stacks: u64,
    free: u32,
) -> Option<CallRefusal>
    ensures refusal { result ≡ register_refusal view registered start stacks free }
    ensures stacks { result ≡ None → stacks ≤ MAX_STACKS }
    ensures frames { result ≡ None → STACK_PAGES * stacks ≤ free }
{
    if view != 0 {
        Some(CallRefusal::InServer)
    } else if registered {
        Some(CallRefusal::Already)
    } else if !start {
        Some(CallRefusal::BadHandler)
    } else if stacks == 0 || stacks > MAX_STACKS {
        Some(CallRefusal::BadCount)
    } else if u64::from(free) < STACK_PAGES * stacks {
        Some(CallRefusal::NoFrames)
    } else {
        None
    }
}

/// Why a thread does not get a view of a process, in its present view: its home, whether the process is a server, how many
/// bindings the thread has, how many key words are left, and how many frames are free.
#[tactic(auto, unfolding(crate::specs::Refusals::bind_refusal))]
pub fn bind_refusal(
    view: u16,
    home: u32,
    process: u64,
    registered: bool,
    bindings: usize,
    keys: u32,
    free: u32,
) -> Option<CallRefusal>
    ensures refusal { result ≡ bind_refusal view home process registered bindings keys free }
    ensures registered { result ≡ None → registered ≡ true }
    ensures bindings { result ≡ None → bindings < MAX_BINDINGS }
    ensures frames { result ≡ None → BIND_FRAMES ≤ free }
{
    if view != 0 {
        Some(CallRefusal::InServer)
    } else if process == u64::from(home) || !registered {
        Some(CallRefusal::NoServer)
    } else if bindings >= MAX_BINDINGS {
        Some(CallRefusal::ListFull)
    } else if keys == 0 {
        Some(CallRefusal::NoKeys)
    } else if free < BIND_FRAMES {
        Some(CallRefusal::NoFrames)
    } else {
        None
    }
}

/// Why a page of a heap of so many pages does not get a mode. That the bytes of VMFUNC may refuse it too is seen later.
#[tactic(auto, unfolding(crate::specs::Refusals::protect_refusal))]
pub fn protect_refusal(count: u32, page: u64, mode: u64) -> Option<CallRefusal>
    ensures refusal { result ≡ protect_refusal count page mode }
    ensures page { result ≡ None → page < count }
{
    if page >= u64::from(count) {
        Some(CallRefusal::BadPage)
    } else if mode == WRITE_MODE || mode == EXECUTE_MODE {
        None
    } else {
        Some(CallRefusal::BadMode)
    }
}

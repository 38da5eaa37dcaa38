//! System call 4: a heap page is written, or executed.

ghost use Rattle.std.specs.Prelude.{◌≡◌, ◌<◌, ◌+◌, ◌^◌};
ghost use Rattle.sb_state.specs.State.{thread_at, process_at};
ghost use Rattle.sb_state.specs.Pattern.{heap_pattern};
ghost use Rattle.sb_trace.specs.SyscallProtect.{heap_count, with_heap_mode, execute_mode_outcome, protect_of_thread};

use super::{accept, refuse};
use sb_abi::CallRefusal;
use sb_calls::{EXECUTE_MODE, protect_refusal};
use sb_insn::Regs;
use sb_insn::registers::{RDI, RSI};
use sb_state::{PageName, PlainState, process_now};
use sb_trace::Event;

#[tactic(auto, unfolding(sb_state::specs::State::process_at))]
fn heap_count(state: &PlainState, process: u32) -> u32
    ensures { result ≡ heap_count (process_at state.now process) }
{
    match state.processes.get(process as usize) {
        Some(process) => process.heap_pages,
        None => 0,
    }
}

#[tactic(auto, unfolding(sb_trace::specs::SyscallProtect::with_heap_mode))]
fn set_executable(state: &mut PlainState, process: u32, page: u32, executable: bool)
    ensures { state.new ≡ with_heap_mode state.old process page executable }
{
    let name = PageName::Heap(process, page);
    state.pages.set_executable(name, executable);
}

/// Executable only where the bytes of VMFUNC stand neither in the page nor across its borders with executable ones.
fn make_executable(state: &mut PlainState, core: u8, next: &Regs, process: u32, page: u32) -> Event
    requires { page + 1 < 2 ^ 32 }
    ensures { (result, state.new)
        ≡ execute_mode_outcome state.old core next.now process page (heap_pattern state.old process page) }
{
    if let Some(address) = state.heap_pattern(process, page) {
        return refuse(state, core, next, CallRefusal::Pattern, address);
    }
    set_executable(state, process, page, true);
    accept(state, core, next)
}

/// Gives a heap page of the process that the view shows a mode: the page is in RDI, the mode in RSI.
///
/// Where the bytes of VMFUNC refuse it, RDX has the lowest address at which they stand.
pub fn protect(state: &mut PlainState, core: u8, next: &Regs) -> Event
    ensures { (result, state.new) ≡ protect_of_thread state.old core (thread_at state.old core) next.now }
{
    let process = process_now(state.thread(core));
    let (page, mode) = (next.general[RDI], next.general[RSI]);
    if let Some(refusal) = protect_refusal(heap_count(state, process), page, mode) {
        return refuse(state, core, next, refusal, 0);
    }
    let page = page as u32;
    if mode == EXECUTE_MODE {
        return make_executable(state, core, next, process, page);
    }
    set_executable(state, process, page, false);
    accept(state, core, next)
}

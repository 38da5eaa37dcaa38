//! System call 2: the process becomes a server.

ghost use Rattle.std.specs.Prelude.{◌≡◌, ◌<◌, ◌≤◌, ◌-◌, ◌*◌, ◌++◌, None, slice_get};
ghost use Rattle.sb_abi.specs.declared.space.TheConstants.{MAX_STACKS};
ghost use Rattle.sb_state.specs.State.{thread_at, process_at};
ghost use Rattle.sb_state.specs.Start.{pages_from};
ghost use Rattle.sb_trace.specs.SyscallRegister.{is_start, refusal_of_register, server_stack_page, with_registration, with_server, register_of_thread};
ghost use Rattle.sb_state.specs.Store.{with_added_page};

use super::{accept, refuse};
use crate::server::{registration_at, set_pool_word};
use sb_abi::{CallRefusal, EXIT_STUB, STACK_PAGES, TOP_WORD};
use sb_calls::register_refusal;
use sb_insn::Regs;
use sb_insn::registers::{RDI, RSI};
use sb_state::{PageName, Pages, PlainState, Process, Registration, process_now};
use sb_trace::Event;

/// The pages of a server stack, as numbers of pages are counted here.
const PAGES: u32 = STACK_PAGES as u32;

// ---- refusals

#[tactic(auto, unfolding(sb_state::specs::State::process_at))]
fn is_start(state: &PlainState, process: u32, address: u64) -> bool
    ensures { result ≡ is_start (process_at state.now process) address }
{
    match state.processes.get(process as usize) {
        Some(process) => process.is_start(address),
        None => false,
    }
}

/// Why the process that a view shows does not become a server.
fn refusal_of_register(
    state: &PlainState,
    view: u16,
    process: u32,
    handler: u64,
    stacks: u64,
) -> Option<CallRefusal>
    ensures refusal { result ≡ refusal_of_register state.now view process handler stacks }
    ensures stacks { result ≡ None → stacks ≤ MAX_STACKS }
    ensures frames { result ≡ None → 4 * stacks ≤ state.now.free }
{
    let registered = registration_at(state, process as usize).is_some();
    let start = is_start(state, process, handler);
    register_refusal(view, registered, start, stacks, state.free)
}

// ---- the server

/// A page of a server stack. The last page of a stack has the address of the exit stub in its top word.
#[tactic(auto, unfolding(sb_trace::specs::SyscallRegister::stack_bytes))]
fn add_stack_page(pages: &mut Pages, process: u32, page: u32)
    requires { 0 < pages.old.room }
    ensures { pages.new ≡ with_added_page pages.old (server_stack_page process page) }
{
    let name = PageName::ServerStack(process, page);
    if page % PAGES == PAGES - 1 {
        pages.add(name, TOP_WORD as usize, &[EXIT_STUB]);
    } else {
        pages.add(name, 0, &[]);
    }
}

fn add_stacks(pages: &mut Pages, process: u32, count: u32)
    requires { count ≤ pages.old.room }
    ensures { pages.new ≡ record {
      pages = pages.old.pages ++ pages_from (server_stack_page process) 0 count;
      room = pages.old.room - count;
    } }
{
    for page in 0..count {
        add_stack_page(pages, process, page);
    }
}

/// The stacks are there, and their frames are taken.
fn take_stacks(state: &mut PlainState, process: u32, pages: u32)
    requires { pages ≤ state.old.free }
    ensures { state.new ≡ record state.old {
      pages = state.old.pages ++ pages_from (server_stack_page process) 0 pages;
      free = state.old.free - pages;
    } }
{
    state.free -= pages;
    add_stacks(&mut state.pages, process, pages);
}

fn note_registration(processes: &mut [Process], process: u32, registration: Registration)
    ensures { processes.new ≡ with_registration (slice_get processes.old process) processes.old process registration }
{
    let place = process as usize;
    if place < processes.len() {
        let server = &mut processes[place];
        server.registration = Some(registration);
    }
}

#[tactic(auto, unfolding(sb_state::specs::State::process_at))]
fn set_registration(state: &mut PlainState, process: u32, registration: Registration)
    ensures { state.new ≡ record state.old {
      processes = with_registration (process_at state.old process) state.old.processes process registration;
    } }
{
    note_registration(&mut state.processes, process, registration);
}

/// The process has so many stacks, all of them free.
#[tactic(auto, unfolding(sb_trace::specs::SyscallRegister::with_server, sb_state::specs::State::process_at, sb_state::specs::PageWords::with_word, sb_state::specs::State::with_contents))]
fn make_server(state: &mut PlainState, process: u32, handler: u64, stacks: u32)
    requires count { stacks ≤ MAX_STACKS }
    requires frames { 4 * stacks ≤ state.old.free }
    ensures { state.new ≡ with_server state.old process handler stacks }
{
    set_pool_word(state, process, (1 << stacks) - 1);
    take_stacks(state, process, PAGES * stacks);
    set_registration(state, process, Registration { handler, stacks });
}

/// Makes the process that the view shows a server: its handler is in RDI, its number of stacks in RSI.
pub fn register(state: &mut PlainState, core: u8, next: &Regs) -> Event
    ensures { (result, state.new) ≡ register_of_thread state.old core (thread_at state.old core) next.now }
{
    let thread = state.thread(core);
    let (view, process) = (thread.view, process_now(thread));
    let (handler, stacks) = (next.general[RDI], next.general[RSI]);
    if let Some(refusal) = refusal_of_register(state, view, process, handler, stacks) {
        return refuse(state, core, next, refusal, 0);
    }
    make_server(state, process, handler, stacks as u32);
    accept(state, core, next)
}

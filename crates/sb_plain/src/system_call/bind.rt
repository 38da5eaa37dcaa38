//! System call 3: a thread gets a view of a server.

ghost use Rattle.std.specs.Prelude.{◌≡◌, ◌<◌, ◌≤◌, ◌+◌, ◌-◌, ◌^◌, ◌++◌, None, length, drop};
ghost use Rattle.sb_abi.specs.declared.frames.TheConstants.{BIND_FRAMES};
ghost use Rattle.sb_abi.specs.declared.space.TheConstants.{MAX_BINDINGS};
ghost use Rattle.sb_tramp.specs.Record.{record_bytes};
ghost use Rattle.sb_state.specs.declared.page.PageName.TheVariants.{Record};
ghost use Rattle.sb_state.specs.State.{page_with, thread_at};
ghost use Rattle.sb_state.specs.Store.{with_added_page};
ghost use Rattle.sb_trace.specs.SyscallBind.{refusal_of_bind, buffer_page, binding_pages, first_key, new_binding, with_binding, bind_of_thread};

use super::refuse;
use crate::server::{handler_of, registration_at};
use sb_abi::{BIND_FRAMES, CallRefusal};
use sb_calls::{bind_refusal, regs_after_bind, server_record};
use sb_insn::Regs;
use sb_insn::registers::{RAX, RDI};
use sb_state::{Binding, PageName, Pages, PlainState, Thread};
use sb_trace::Event;
use sb_tramp::RecordWords;

// ---- refusals

/// Why the thread does not get a view of a process.
#[tactic(auto, unfolding(sb_calls::specs::Refusals::bind_refusal))]
fn refusal_of_bind(state: &PlainState, thread: &Thread, server: u64) -> Option<CallRefusal>
    ensures refusal { result ≡ refusal_of_bind state.now thread.now server }
    ensures number { result ≡ None → server < 2 ^ 32 }
    ensures bindings { result ≡ None → length thread.now.bindings < MAX_BINDINGS }
    ensures frames { result ≡ None → BIND_FRAMES ≤ state.now.free }
{
    let registered = registration_at(state, server as usize).is_some();
    bind_refusal(
        thread.view,
        thread.home,
        server,
        registered,
        thread.bindings.items().len(),
        state.keys.left(),
        state.free,
    )
}

// ---- the binding

/// The record page of a view.
#[tactic(auto, using(sb_state::proofs::Start::record_page))]
fn add_record(pages: &mut Pages, thread: u32, index: u32, words: &RecordWords)
    requires { 0 < pages.old.room }
    ensures { pages.new ≡ with_added_page pages.old (page_with (Record thread index) (record_bytes words.now)) }
{
    pages.add(PageName::Record(thread, index), 0, &words.in_order());
}

/// The record page, the scratch page and the buffer of a view.
#[tactic(auto, unfolding(sb_trace::specs::SyscallBind::binding_pages))]
fn add_view(pages: &mut Pages, thread: u32, index: u32, words: &RecordWords)
    requires { 6 ≤ pages.old.room }
    ensures pages { pages.new.pages ≡ pages.old.pages ++ binding_pages thread index words.now }
    ensures room { pages.new.room + 6 ≡ pages.old.room }
{
    add_record(pages, thread, index, words);
    pages.add(PageName::Scratch(thread, index), 0, &[]);
    pages.add(PageName::Buffer(thread, index, 0), 0, &[]);
    pages.add(PageName::Buffer(thread, index, 1), 0, &[]);
    pages.add(PageName::Buffer(thread, index, 2), 0, &[]);
    pages.add(PageName::Buffer(thread, index, 3), 0, &[]);
}

/// The pages of a view are there, and its frames are taken.
fn take_view(state: &mut PlainState, thread: u8, index: u16, words: &RecordWords)
    requires { BIND_FRAMES ≤ state.old.free }
    ensures { state.new ≡ record state.old {
      pages = state.old.pages ++ binding_pages thread index words.now;
      free = state.old.free - BIND_FRAMES;
    } }
{
    state.free -= BIND_FRAMES;
    add_view(&mut state.pages, u32::from(thread), u32::from(index), words);
}

/// The next key word, which is there.
fn draw_key(state: &mut PlainState) -> u64
    ensures key { result ≡ first_key state.old.keys }
    ensures left { state.new ≡ record state.old { keys = drop 1 state.old.keys } }
{
    state.keys.draw().unwrap_or(0)
}

/// The thread has a view of a server more, with its pages and a key of its own.
#[tactic(auto, unfolding(sb_trace::specs::SyscallBind::with_binding, sb_state::specs::State::thread_at, sb_state::specs::State::registration_at, sb_state::specs::State::process_at))]
fn make_binding(state: &mut PlainState, core: u8, server: u32) -> Binding
    requires bindings { length (thread_at state.old core).bindings < MAX_BINDINGS }
    requires frames { BIND_FRAMES ≤ state.old.free }
    ensures binding { result ≡ new_binding state.old (thread_at state.old core) server }
    ensures made { state.new
        ≡ with_binding state.old core (thread_at state.old core) (new_binding state.old (thread_at state.old core) server) }
{
    let handler = handler_of(state, server);
    let key = draw_key(state);
    let thread = state.thread(core);
    let index = thread.bindings.free_index();
    let binding = Binding { index, server, key };
    let words = server_record(core, thread.home, key, handler);
    take_view(state, core, index, &words);
    state.push_binding(core, binding);
    binding
}

/// Binds the thread to the process in RDI. RDX becomes the index of the view, R8 its key, and R10 the address of its
/// buffer.
pub fn bind(state: &mut PlainState, core: u8, next: &Regs) -> Event
    ensures { (result, state.new) ≡ bind_of_thread state.old core (thread_at state.old core) next.now }
{
    let server = next.general[RDI];
    if let Some(refusal) = refusal_of_bind(state, state.thread(core), server) {
        return refuse(state, core, next, refusal, 0);
    }
    let binding = make_binding(state, core, server as u32);
    let regs = regs_after_bind(next, core, binding.index, binding.key);
    state.set_regs(core, regs);
    Event::Sys {
        number: next.general[RAX],
        answer: 0,
    }
}

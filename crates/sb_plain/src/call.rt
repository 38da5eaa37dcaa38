//! A call or a return through VMFUNC, as one step of a kernel.
//!
//! The leaf is in EAX, the index in ECX and the key in RSI. Each refusal of a call leads home with a status in R9.

ghost use Rattle.std.specs.Prelude.{◌≡◌, ◌<◌, ◌≤◌, ◌^◌};
ghost use Rattle.sb_trace.specs.declared.event.Event.TheVariants.{Entered};
ghost use Rattle.sb_abi.specs.Numbers.{status_number};
ghost use Rattle.sb_state.specs.State.{thread_at};
ghost use Rattle.sb_trace.specs.KernelCall.{binding_with, pool_word, refusal_outcome, refusal_or_fault, return_outcome, lowest_bit, state_at_handler, entry_outcome, call_outcome, kernel_call};

use crate::fault::fault;
use crate::server::{handler_of, pool_word, set_pool_word};
use sb_abi::{CallStatus, RETURN_ADDRESS};
use sb_exec::FaultKind;
use sb_insn::Regs;
use sb_insn::registers::RSI;
use sb_state::{Binding, PlainState, eax, ecx, entry_regs, refusal_regs};
use sb_trace::Event;

// ---- refusals and ways home

/// A refused call, with its line: the thread is in its home view.
fn refuse(state: &mut PlainState, core: u8, line: Event, status: CallStatus) -> Event
    ensures { (result, state.new) ≡ refusal_outcome state.old core (thread_at state.old core) line (status_number status) }
{
    let regs = refusal_regs(&state.thread(core).regs, status);
    state.set_view(core, 0, regs);
    line
}

/// No view is switched: in a server's view that is a fault at the VMFUNC.
fn refuse_or_fault(state: &mut PlainState, core: u8, line: Event, status: CallStatus) -> Event
    ensures { (result, state.new) ≡ refusal_or_fault state.old core (thread_at state.old core) line (status_number status) }
{
    let thread = state.thread(core);
    let (view, rip) = (thread.view, thread.regs.rip);
    if view == 0 {
        refuse(state, core, line, status)
    } else {
        fault(state, core, FaultKind::Switch, rip)
    }
}

/// Index 0 leads home.
fn return_home(state: &mut PlainState, core: u8) -> Event
    ensures { (result, state.new) ≡ return_outcome state.old core (thread_at state.old core) }
{
    let thread = state.thread(core);
    let (view, regs) = (thread.view, thread.regs);
    let at_home = Regs {
        rip: RETURN_ADDRESS,
        ..regs
    };
    state.set_view(core, 0, at_home);
    if view == 0 {
        Event::Turn
    } else {
        Event::Return
    }
}

// ---- entry

/// The number of the lowest bit that is set.
#[tactic(auto, using(crate::proofs::Bits::lowest_value))]
fn lowest_bit(word: u64) -> u32
    requires { 0 < word }
    ensures bit { result ≡ lowest_bit word }
    ensures range { result < 64 }
    ensures value { 2 ^ result ≤ word }
{
    word.trailing_zeros()
}

/// The server's lowest free stack, by its pool word, is taken, and the thread stands at the handler.
fn enter(state: &mut PlainState, core: u8, binding: Binding, word: u64) -> Event
    requires { 0 < word }
    ensures line { result ≡ Entered binding.index (lowest_bit word) }
    ensures entered { state.new ≡ state_at_handler state.old core (thread_at state.old core) binding word }
{
    let stack = lowest_bit(word);
    let handler = handler_of(state, binding.server);
    let regs = entry_regs(&state.thread(core).regs, stack, handler);
    set_pool_word(state, binding.server, word - (1 << stack));
    state.set_view(core, binding.index, regs);
    Event::Entered {
        index: u32::from(binding.index),
        slot: stack as u8,
    }
}

/// A call with the key: it enters where a server stack is free.
fn take_stack(state: &mut PlainState, core: u8, binding: Binding) -> Event
    ensures { (result, state.new)
        ≡ entry_outcome state.old core (thread_at state.old core) binding (pool_word state.old binding.server) }
{
    let index = u32::from(binding.index);
    match pool_word(state, binding.server) {
        0 => refuse(
            state,
            core,
            Event::PoolEmpty { index },
            CallStatus::PoolEmpty,
        ),
        word => enter(state, core, binding, word),
    }
}

// ---- the call

/// A call through the binding of an index, if there is one.
fn call_through(state: &mut PlainState, core: u8, index: u32) -> Event
    ensures { (result, state.new)
        ≡ call_outcome state.old core (thread_at state.old core) index
        (binding_with (thread_at state.old core).bindings index) }
{
    let thread = state.thread(core);
    let key = thread.regs.general[RSI];
    match thread.bindings.find(index) {
        None => refuse_or_fault(state, core, Event::Unbound { index }, CallStatus::Unbound),
        Some(binding) if key == binding.key => take_stack(state, core, binding),
        Some(binding) => {
            let index = u32::from(binding.index);
            refuse(state, core, Event::WrongKey { index }, CallStatus::WrongKey)
        }
    }
}

/// VMFUNC of the thread of a core, done at once, and its line.
#[tactic(auto, unfolding(sb_trace::specs::KernelCall::kernel_call))]
pub fn kernel_call(state: &mut PlainState, core: u8) -> Event
    ensures { (result, state.new) ≡ kernel_call state.old core }
{
    let regs = state.thread(core).regs;
    let (leaf, index) = (eax(&regs), ecx(&regs));
    if leaf != 0 {
        refuse_or_fault(state, core, Event::BadLeaf { index }, CallStatus::BadLeaf)
    } else if index == 0 {
        return_home(state, core)
    } else {
        call_through(state, core, index)
    }
}

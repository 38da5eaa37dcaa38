//! The landing of a call, phase by phase.
//!
//! A VMFUNC into a server begins a flight. Each step of it is a phase; one phase decides the call, and does it then, in
//! one step. Before that the thread stays as it was at the VMFUNC.

ghost use Rattle.std.specs.Prelude.{◌≡◌};
ghost use Rattle.sb_state.specs.State.{thread_at};
ghost use Rattle.sb_trace.specs.Flight.{is_key, bound_pool, with_mask, decision_at_phase, phase_after, next_flight, phase_outcome, landing_step, called_binding, vmfunc_outcome};

use crate::call::kernel_call;
use crate::server::pool_word;
use sb_abi::{
    BRANCH_ON_EXCHANGE, BRANCH_ON_KEY, BRANCH_ON_POOL, COMPARE_KEY, ENTER, EXCHANGE_POOL, GO_HOME,
    LEAVE, LOAD_POOL, SKIP, STATUS_POOL_EMPTY, STATUS_WRONG_KEY, VMFUNC_PHASE,
};
use sb_insn::registers::RSI;
use sb_state::{Binding, Decision, Flight, PlainState, Thread, eax, ecx};
use sb_trace::Event;

// ---- what a phase looks at

fn is_key(binding: Option<Binding>, word: u64) -> bool
    ensures { result ≡ is_key binding word }
{
    match binding {
        Some(binding) => word == binding.key,
        None => false,
    }
}

/// The pool word of the binding's server.
fn bound_pool(state: &PlainState, binding: Option<Binding>) -> u64
    ensures { result ≡ bound_pool state.now binding }
{
    match binding {
        Some(binding) => pool_word(state, binding.server),
        None => 0,
    }
}

// ---- a phase

/// The phase that loads the pool word makes it the mask.
fn with_mask(pool: u64, flight: Flight) -> Flight
    ensures { result ≡ with_mask pool flight }
{
    let mask = if flight.phase == LOAD_POOL {
        pool
    } else {
        flight.mask
    };
    Flight { mask, ..flight }
}

/// Whether this phase decides the call, and how: by the key that it compares, by the pool word that it loads, or by the
/// exchange, which takes a stack where the pool word is still the mask.
#[tactic(auto, unfolding(sb_trace::specs::Flight::decision_at_phase))]
fn decision_at_phase(phase: u8, key_fits: bool, pool: u64, mask: u64) -> Option<Decision>
    ensures { result ≡ decision_at_phase phase key_fits pool mask }
{
    match phase {
        COMPARE_KEY if !key_fits => Some(Decision::WrongKey),
        LOAD_POOL if pool == 0 => Some(Decision::PoolEmpty),
        EXCHANGE_POOL if pool == mask => Some(Decision::Entered),
        _ => None,
    }
}

/// The phase behind this one; `None` where the landing ends.
#[tactic(auto, unfolding(sb_trace::specs::Flight::phase_after))]
fn phase_after(phase: u8, decided: Option<Decision>, mask: u64) -> Option<u8>
    ensures { result ≡ phase_after phase decided mask }
{
    match phase {
        BRANCH_ON_KEY if decided == Some(Decision::WrongKey) => Some(STATUS_WRONG_KEY),
        BRANCH_ON_POOL if mask == 0 => Some(STATUS_POOL_EMPTY),
        BRANCH_ON_EXCHANGE if decided != Some(Decision::Entered) => Some(LOAD_POOL),
        SKIP => Some(LEAVE),
        ENTER | GO_HOME.. => None,
        _ => Some(phase + 1),
    }
}

/// The flight behind its phase.
fn next_flight(flight: Flight) -> Option<Flight>
    ensures { result ≡ next_flight flight }
{
    let phase = phase_after(flight.phase, flight.decided, flight.mask)?;
    Some(Flight { phase, ..flight })
}

/// A phase that decides the call does the kernel's call; each other one lands.
fn phase_outcome(
    state: &mut PlainState,
    core: u8,
    flight: Flight,
    decided: Option<Decision>,
) -> Event
    ensures { (result, state.new) ≡ phase_outcome state.old core flight decided }
{
    if decided.is_none() {
        state.set_flight(core, next_flight(flight));
        return Event::Landing {
            phase: flight.phase,
        };
    }
    // The call decides again, from the state of this moment. That it decides alike is a law (`flights_decide` of sb_trace).
    let line = kernel_call(state, core);
    state.set_flight(core, next_flight(Flight { decided, ..flight }));
    line
}

/// A step of the thread of a core in its flight, and its line.
#[tactic(auto, unfolding(sb_trace::specs::Flight::landing_step))]
pub fn landing_step(state: &mut PlainState, core: u8, flight: Flight) -> Event
    ensures { (result, state.new) ≡ landing_step state.old core flight }
{
    let thread = state.thread(core);
    let key = thread.regs.general[RSI];
    let binding = thread.bindings.find(u32::from(flight.index));
    let pool = bound_pool(state, binding);
    let decided = decision_at_phase(flight.phase, is_key(binding, key), pool, flight.mask);
    phase_outcome(state, core, with_mask(pool, flight), decided)
}

// ---- the VMFUNC

/// The binding into which VMFUNC leads: leaf 0, and its index.
fn called_binding(thread: &Thread) -> Option<Binding>
    ensures { result ≡ called_binding thread.now }
{
    let index = ecx(&thread.regs);
    if eax(&thread.regs) == 0 && index != 0 {
        thread.bindings.find(index)
    } else {
        None
    }
}

/// VMFUNC of the thread of a core, and its line: a flight begins where it leads into a server.
#[tactic(auto, unfolding(sb_trace::specs::Flight::vmfunc_outcome))]
pub fn vmfunc(state: &mut PlainState, core: u8) -> Event
    ensures { (result, state.new) ≡ vmfunc_outcome state.old core }
{
    let Some(binding) = called_binding(state.thread(core)) else {
        return kernel_call(state, core);
    };
    let flight = Flight {
        index: binding.index,
        phase: COMPARE_KEY,
        mask: 0,
        decided: None,
    };
    state.set_flight(core, Some(flight));
    Event::Landing {
        phase: VMFUNC_PHASE,
    }
}

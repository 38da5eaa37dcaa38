//! The machine at the end of a run.

ghost use Rattle.std.specs.Prelude.{◌≡◌, ◌<◌, ◌≤◌, IfOk, length};
ghost use Rattle.sb_abi.specs.declared.space.TheConstants.{WINDOW_THREADS};
ghost use Rattle.sb_trace.specs.End.{end_of};
ghost use Rattle.sb_trace.specs.State.{State};
ghost use Rattle.sb_machine.specs.End.{is_entering, stack_number, refusal_status, decided_regs, plain_regs, plain_view, handler_shown, core_end, core_ends, machine_end};
ghost use Rattle.sb_machine.specs.StandsFor.{IsMachineOf};

use crate::machine::Machine;
use crate::parts::Parts;
use crate::processor::Core;
use sb_abi::{
    ADD_OFFSET, BRANCH_ON_EXCHANGE, BRANCH_ON_KEY, BRANCH_ON_POOL, CallStatus, ENTER,
    FIRST_STACK_TOP, STACK_DISTANCE, STACK_OFFSET, STATUS_POOL_EMPTY, STATUS_WRONG_KEY, TEST_MASK,
};
use sb_insn::Regs;
use sb_insn::registers::{R9, R10, RSP};
use sb_state::{entry_regs, refusal_regs};
use sb_trace::{EndState, ThreadEnd, ThreadEnds};
use std::alloc::{AllocError, Global};

// ---- a call in flight that is decided

/// Whether a decided call at this phase is entered; else it is refused.
fn is_entering(phase: u8) -> bool
    ensures { result ≡ is_entering phase }
{
    BRANCH_ON_EXCHANGE <= phase && phase <= ENTER
}

/// The number of the server stack that an entered call took, by R10 or RSP.
fn stack_number(phase: u8, regs: &Regs) -> u8
    ensures { result ≡ stack_number phase regs.now }
{
    let number = if phase <= STACK_OFFSET {
        regs.general[R10]
    } else if phase <= ADD_OFFSET {
        regs.general[R10] / STACK_DISTANCE
    } else {
        regs.general[RSP].saturating_sub(FIRST_STACK_TOP) / STACK_DISTANCE
    };
    (number % 256) as u8
}

/// The status of a refused call: until R9 has it the phase tells it.
fn refusal_status(phase: u8, regs: &Regs) -> CallStatus
    ensures { result ≡ refusal_status phase regs.now }
{
    match phase {
        BRANCH_ON_KEY | STATUS_WRONG_KEY => CallStatus::WrongKey,
        TEST_MASK | BRANCH_ON_POOL | STATUS_POOL_EMPTY => CallStatus::PoolEmpty,
        _ if regs.general[R9] == CallStatus::WrongKey.number() => CallStatus::WrongKey,
        _ => CallStatus::PoolEmpty,
    }
}

/// The registers of a decided call as the plain machine has them, by those at a phase of the landing.
fn decided_regs(phase: u8, regs: &Regs, handler: u64) -> Regs
    ensures { result ≡ decided_regs phase regs.now handler }
{
    if is_entering(phase) {
        entry_regs(regs, u32::from(stack_number(phase, regs)), handler)
    } else {
        refusal_regs(regs, refusal_status(phase, regs))
    }
}

// ---- a core, as the plain machine has its thread

/// Registers, where this is the handler of the server that the core's view shows.
fn plain_regs(core: &Core, handler: u64) -> Regs
    ensures { result ≡ plain_regs core.now handler }
{
    match (core.origin, core.state.phase) {
        (Some(origin), _) => origin.regs,
        (None, Some(phase)) => decided_regs(phase, &core.state.regs, handler),
        (None, None) => core.state.regs,
    }
}

/// The view: a call that is refused is at home.
fn plain_view(core: &Core) -> u16
    ensures { result ≡ plain_view core.now }
{
    match (core.origin, core.state.phase) {
        (Some(origin), _) => origin.view,
        (None, Some(phase)) if !is_entering(phase) => 0,
        _ => core.state.view,
    }
}

// ---- the machine

/// The handler of the process that a view of a thread shows; 0 where it is no server.
fn handler_shown(parts: &Parts, number: u8, view: u16) -> u64
    requires { number < length parts.now.kernel.seats }
    ensures { result ≡ handler_shown parts.now number view }
{
    let process = parts.kernel.shown(number, view);
    match parts.kernel.registration(u64::from(process)) {
        Some(registration) => registration.handler,
        None => 0,
    }
}

/// The end of a core's thread, of this number.
fn core_end(parts: &Parts, number: u8, core: &Core) -> ThreadEnd
    requires { number < length parts.now.kernel.seats }
    ensures { result ≡ core_end parts.now number core.now }
{
    let view = plain_view(core);
    let handler = handler_shown(parts, number, core.state.view);
    ThreadEnd {
        home: parts.kernel.shown(number, 0),
        view,
        present: parts.kernel.shown(number, view),
        state: core.end,
        regs: plain_regs(core, handler),
        flight: core.state.phase,
    }
}

/// The ends of all threads, in order.
fn core_ends(alloc: Global, parts: &Parts) -> Result<ThreadEnds, AllocError>
    requires few { length parts.now.cores ≤ WINDOW_THREADS }
    requires seats { length parts.now.cores ≤ length parts.now.kernel.seats }
    ensures { IfOk result (λ ends. ends ≡ core_ends parts.now 0 parts.now.cores) }
{
    let mut ends = Vec::new(alloc);
    for (number, core) in parts.cores.iter().enumerate() {
        ends.push(core_end(parts, number as u8, core))?;
    }
    Ok(ThreadEnds::new(ends))
}

/// The end of a run: all threads, and how many frames are free and key words left.
fn machine_end(alloc: Global, parts: &Parts) -> Result<EndState, AllocError>
    requires few { length parts.now.cores ≤ WINDOW_THREADS }
    requires seats { length parts.now.cores ≤ length parts.now.kernel.seats }
    ensures { IfOk result (λ end. end ≡ machine_end parts.now) }
{
    Ok(EndState {
        threads: core_ends(alloc, parts)?,
        free: parts.book.free(),
        keys: parts.kernel.keys_left(),
    })
}

impl Machine {
    /// The state as the report shows it: that of each state of the plain machine for which this machine stands. A thread in
    /// flight is shown as the plain machine has it, and its phase beside.
    ///
    /// # Errors
    ///
    /// Want of memory alone.
    #[tactic(auto, using(crate::proofs::Ending::few_cores))]
    pub fn end(&self, alloc: Global) -> Result<EndState, AllocError>
        ensures { IfOk result (λ end. (state : State) → IsMachineOf self.now state → end ≡ end_of state) }
    {
        machine_end(alloc, &self.parts)
    }
}

//! What follows an instruction: its line, the way home, and faults.

ghost use Rattle.std.specs.Prelude.{◌≡◌, ◌<◌, length};
ghost use Rattle.sb_memory.specs.Physical.{IsWordPlace};
ghost use Rattle.sb_walks.specs.Entry.{entry_in};
ghost use Rattle.sb_trace.specs.State.{State};
ghost use Rattle.sb_landing.specs.Lands.{line_of};
ghost use Rattle.sb_machine.specs.StandsFor.{IsMachineOf};
ghost use Rattle.sb_machine.specs.Outcomes.{line_by, origin_behind, core_behind, next_outcome, home_eptp, home_state, machine_at_home, fault_outcome};

use crate::parts::Parts;
use crate::phase::phase_behind;
use crate::processor::{Core, CoreState, Origin};
use sb_abi::{COMPARE_KEY, EXCHANGE_POOL, LOAD_POOL};
use sb_bus::FaultKind;
use sb_calls::server_fault_regs;
use sb_insn::Regs;
use sb_insn::registers::{R10, RAX};
use sb_memory::Memory;
use sb_state::EndKind;
use sb_trace::Event;

// ---- an instruction that goes on

/// The line of a phase by the registers behind it: ZF and RAX say whether it decided the call.
fn line_of(phase: u8, view: u16, regs: &Regs) -> Event
    ensures { result ≡ line_of phase view regs.now }
{
    let index = u32::from(view);
    match phase {
        COMPARE_KEY if !regs.flags.zf => Event::WrongKey { index },
        LOAD_POOL if regs.general[RAX] == 0 => Event::PoolEmpty { index },
        EXCHANGE_POOL if regs.flags.zf => Event::Entered {
            index,
            slot: (regs.general[R10] % 256) as u8,
        },
        _ => Event::Landing { phase },
    }
}

/// The line of an instruction that went on from RIP and left these registers: in flight by the phase and the registers, else the
/// address at which it stood.
pub fn line_by(phase: Option<u8>, view: u16, rip: u64, regs: &Regs) -> Event
    ensures { result ≡ line_by phase view rip regs.now }
{
    match phase {
        Some(phase) => line_of(phase, view, regs),
        None => Event::Step { rip },
    }
}

/// Where the thread stood at the VMFUNC, kept until the call is decided.
fn origin_behind(line: Event, origin: Option<Origin>) -> Option<Origin>
    ensures { result ≡ origin_behind line origin }
{
    match line {
        Event::Landing { .. } => origin,
        _ => None,
    }
}

/// The core behind an instruction that left these registers.
fn core_behind(core: &Core, line: Event, regs: Regs) -> Core
    requires { line ≡ line_by core.now.state.phase core.now.state.view core.now.state.regs.rip regs }
    ensures { result ≡ core_behind core.now regs }
{
    let phase = phase_behind(core.state.phase, regs.rip);
    let state = CoreState {
        regs,
        phase,
        ..core.state
    };
    Core {
        state,
        origin: origin_behind(line, core.origin),
        ..*core
    }
}

/// The core goes on with these registers; memory is as the instruction left it.
pub fn go_on(parts: &mut Parts, number: u8, regs: Regs) -> Event
    requires { number < length parts.old.cores }
    ensures { (result, parts.new) ≡ next_outcome parts.old number regs parts.old.memory }
{
    let core = parts.core(number);
    let state = &core.state;
    let line = line_by(state.phase, state.view, state.regs.rip, &regs);
    parts.set_core(number, core_behind(&core, line, regs));
    line
}

// ---- the way home, and faults

/// The EPT pointer of a core's home view, by its list.
pub fn home_eptp(memory: &Memory, state: &CoreState) -> u64
    requires { IsWordPlace memory.now (entry_in state.now.list.0 0) }
    ensures { result ≡ home_eptp memory.now state.now }
{
    memory.word(state.list.word(0))
}

/// A core in its home view, through this pointer, with these registers.
pub fn home_state(eptp: u64, state: &CoreState, regs: Regs) -> CoreState
    ensures { result ≡ home_state eptp state.now regs }
{
    CoreState {
        regs,
        eptp,
        view: 0,
        phase: None,
        ..*state
    }
}

/// Sends the thread of a core home from a server's view. The stack that it has of the server stays taken.
#[tactic(auto, using(crate::proofs::Places::home_word))]
fn send_home(parts: &mut Parts, number: u8)
    requires there { number < length parts.old.cores }
    requires stands { (state : State) × IsMachineOf parts.old state }
    ensures { parts.new ≡ machine_at_home parts.old number }
{
    let state = parts.core(number).state;
    let home = home_eptp(&parts.memory, &state);
    parts.set_state(number, home_state(home, &state, server_fault_regs()));
}

/// A fault of the thread of a core, and its line. At home it ends the thread; in a server's view it sends it home.
pub fn fault(parts: &mut Parts, number: u8, kind: FaultKind, at: u64) -> Event
    requires there { number < length parts.old.cores }
    requires stands { (state : State) × IsMachineOf parts.old state }
    ensures { (result, parts.new) ≡ fault_outcome parts.old number kind at }
{
    let core = parts.core(number);
    if core.state.view == 0 {
        let end = EndKind::Faulted(kind, at);
        parts.set_core(number, Core { end, ..core });
        Event::Fault { kind, at }
    } else {
        send_home(parts, number);
        Event::ServerFault { kind, at }
    }
}

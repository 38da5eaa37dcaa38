//! VMFUNC: the core goes on in another view, or the kernel refuses.

ghost use Rattle.std.specs.Prelude.{◌≡◌, ◌<◌, length};
ghost use Rattle.sb_abi.specs.Numbers.{status_number};
ghost use Rattle.sb_insn.specs.Grammar.{IsValid};
ghost use Rattle.sb_trace.specs.State.{State};
ghost use Rattle.sb_machine.specs.StandsFor.{IsMachineOf};
ghost use Rattle.sb_machine.specs.Outcomes.{refusal_outcome, regs_behind, home_line, homecoming, core_in_flight, departure, switch_outcome};

use crate::outcome::{fault, home_state};
use crate::parts::Parts;
use crate::processor::{Core, CoreState, Origin};
use sb_abi::{COMPARE_KEY, CallStatus, VMFUNC_PHASE};
use sb_bus::FaultKind;
use sb_insn::{Insn, Regs};
use sb_root::{Switch, switch};
use sb_state::{eax, ecx, refusal_regs};
use sb_trace::Event;

/// A switch that the kernel refuses, with its line: at home with a status, in a server's view as a fault at the VMFUNC.
fn refuse(parts: &mut Parts, number: u8, line: Event, status: CallStatus) -> Event
    requires there { number < length parts.old.cores }
    requires stands { (state : State) × IsMachineOf parts.old state }
    ensures { (result, parts.new) ≡ refusal_outcome parts.old number line (status_number status) }
{
    let state = parts.core(number).state;
    if state.view == 0 {
        let regs = refusal_regs(&state.regs, status);
        parts.set_state(number, CoreState { regs, ..state });
        line
    } else {
        fault(parts, number, FaultKind::Switch, state.regs.rip)
    }
}

/// The registers at the instruction behind this one.
pub fn regs_behind(insn: &Insn, regs: &Regs) -> Regs
    requires { IsValid insn.now }
    ensures { result ≡ regs_behind insn.now regs.now }
{
    Regs {
        rip: regs.rip.wrapping_add(insn.length() as u64),
        ..*regs
    }
}

/// The line of a way into the home view: the end of a refused call in flight, a turn, or a return.
pub fn home_line(phase: Option<u8>, view: u16) -> Event
    ensures { result ≡ home_line phase view }
{
    match phase {
        Some(phase) => Event::Landing { phase },
        None if view == 0 => Event::Turn,
        None => Event::Return,
    }
}

/// The core goes on in its home view.
fn come_home(parts: &mut Parts, number: u8, insn: &Insn, eptp: u64) -> Event
    requires there { number < length parts.old.cores }
    requires valid { IsValid insn.now }
    ensures { (result, parts.new) ≡ homecoming parts.old number insn.now eptp }
{
    let state = parts.core(number).state;
    let regs = regs_behind(insn, &state.regs);
    parts.set_state(number, home_state(eptp, &state, regs));
    home_line(state.phase, state.view)
}

/// The core goes on in the view of a server: a flight begins.
fn depart(parts: &mut Parts, number: u8, insn: &Insn, index: u16, eptp: u64) -> Event
    requires there { number < length parts.old.cores }
    requires valid { IsValid insn.now }
    ensures { (result, parts.new) ≡ departure parts.old number insn.now index eptp }
{
    let core = parts.core(number);
    let origin = Origin {
        regs: core.state.regs,
        view: core.state.view,
    };
    let state = CoreState {
        regs: regs_behind(insn, &core.state.regs),
        eptp,
        view: index,
        phase: Some(COMPARE_KEY),
        ..core.state
    };
    let in_flight = Core {
        state,
        origin: Some(origin),
        ..core
    };
    parts.set_core(number, in_flight);
    Event::Landing {
        phase: VMFUNC_PHASE,
    }
}

/// VMFUNC of a core, and its line.
#[tactic(auto, using(crate::proofs::Places::list_frame), unfolding(sb_root::specs::Switch::switch_result))]
pub fn vmfunc(parts: &mut Parts, number: u8, insn: &Insn) -> Event
    requires there { number < length parts.old.cores }
    requires valid { IsValid insn.now }
    requires stands { (state : State) × IsMachineOf parts.old state }
    ensures { (result, parts.new) ≡ switch_outcome parts.old number insn.now }
{
    let state = parts.core(number).state;
    let index = ecx(&state.regs);
    match switch(&mut parts.memory, state.list, eax(&state.regs), index) {
        Ok(Switch::To { eptp }) if index == 0 => come_home(parts, number, insn, eptp),
        Ok(Switch::To { eptp }) => depart(parts, number, insn, index as u16, eptp),
        Ok(Switch::BadLeaf) => refuse(parts, number, Event::BadLeaf { index }, CallStatus::BadLeaf),
        Ok(Switch::Unbound) | Err(_) => {
            refuse(parts, number, Event::Unbound { index }, CallStatus::Unbound)
        }
    }
}

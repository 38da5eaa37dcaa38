//! System calls.
//!
//! The number is RAX, and the calls act on the process that the thread's view shows. RAX becomes 0 or the number of a
//! refusal, and RDX a second value or 0. A refused call changes nothing else but what SYSCALL itself does: RIP, RCX, R11.
//!
//! Each function takes the registers after SYSCALL, which `system_call` computes once: number and arguments are still in
//! them.

mod bind;
mod protect;
mod register;

ghost use Rattle.std.specs.Prelude.{◌≡◌};
ghost use Rattle.sb_exec.specs.Operand.{next_rip};
ghost use Rattle.sb_calls.specs.SyscallRegisters.{after_syscall};
ghost use Rattle.sb_state.specs.State.{thread_at};
ghost use Rattle.sb_trace.specs.SyscallAnswer.{state_after_call, syscall_refusal, syscall_acceptance};
ghost use Rattle.sb_trace.specs.Syscall.{exit_outcome, outcome_by_number, syscall_outcome};

use crate::fault::send_home;
use bind::bind;
use protect::protect;
use register::register;
use sb_abi::{Call, CallRefusal};
use sb_calls::{after_syscall, regs_with_answer};
use sb_insn::registers::{RAX, RDI};
use sb_insn::{Insn, Regs};
use sb_state::{EndKind, PlainState};
use sb_trace::Event;

// ---- the ways in which a call ends

/// The thread goes on after SYSCALL, with an answer and a second value.
fn answer_call(state: &mut PlainState, core: u8, next: &Regs, answer: u64, second: u64)
    ensures { state.new ≡ state_after_call state.old core next.now answer second }
{
    state.set_regs(core, regs_with_answer(next, answer, second));
}

/// The call is refused, with a second value.
fn refuse(state: &mut PlainState, core: u8, next: &Regs, refusal: CallRefusal, second: u64) -> Event
    ensures { (result, state.new) ≡ syscall_refusal state.old core next.now refusal second }
{
    let answer = refusal.number();
    answer_call(state, core, next, answer, second);
    Event::Sys {
        number: next.general[RAX],
        answer,
    }
}

/// The call did what it does, and has no second value.
fn accept(state: &mut PlainState, core: u8, next: &Regs) -> Event
    ensures { (result, state.new) ≡ syscall_acceptance state.old core next.now }
{
    answer_call(state, core, next, 0, 0);
    Event::Sys {
        number: next.general[RAX],
        answer: 0,
    }
}

// ---- exit and print

/// At home the thread ends with a status; in a server's view it is sent home.
fn exit(state: &mut PlainState, core: u8, next: &Regs) -> Event
    ensures { (result, state.new) ≡ exit_outcome state.old core next.now }
{
    let status = next.general[RDI];
    if state.thread(core).view != 0 {
        send_home(state, core);
        return Event::ServerExit { status };
    }
    state.set_regs(core, *next);
    state.set_end(core, EndKind::Ended(status));
    Event::Exit { status }
}

// ---- by number

const EXIT: u64 = Call::Exit as u64;

const PRINT: u64 = Call::Print as u64;

const REGISTER: u64 = Call::Register as u64;

const BIND: u64 = Call::Bind as u64;

const PROTECT: u64 = Call::Protect as u64;

fn call_by_number(state: &mut PlainState, core: u8, next: &Regs, number: u64) -> Event
    ensures { (result, state.new) ≡ outcome_by_number state.old core (thread_at state.old core) next.now number }
{
    match number {
        EXIT => exit(state, core, next),
        PRINT => {
            answer_call(state, core, next, 0, 0);
            Event::Printed {
                value: next.general[RDI],
            }
        }
        REGISTER => register(state, core, next),
        BIND => bind(state, core, next),
        PROTECT => protect(state, core, next),
        _ => refuse(state, core, next, CallRefusal::NoCall, 0),
    }
}

/// SYSCALL of the thread of a core, which began with these registers, and its line.
#[tactic(auto, unfolding(sb_trace::specs::Syscall::syscall_outcome))]
pub fn system_call(state: &mut PlainState, core: u8, insn: &Insn, regs: &Regs) -> Event
    ensures { (result, state.new) ≡ syscall_outcome state.old core (after_syscall (next_rip insn.now regs.now) regs.now) }
{
    let next = after_syscall(regs.rip.wrapping_add(insn.length() as u64), regs);
    call_by_number(state, core, &next, next.general[RAX])
}

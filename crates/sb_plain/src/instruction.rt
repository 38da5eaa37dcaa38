//! One instruction of a thread of the plain machine.

ghost use Rattle.std.specs.Prelude.{◌≡◌, ◌≢◌, Ok, IfOk, IfErr, IfSome};
ghost use Rattle.sb_insn.specs.Grammar.{IsValid};
ghost use Rattle.sb_exec.specs.Execution.{execution_of};
ghost use Rattle.sb_exec.specs.Fetching.{FetchesOn};
ghost use Rattle.sb_exec.specs.Rows.{row_of};
ghost use Rattle.sb_state.specs.PlainMemory.{plain};
ghost use Rattle.sb_trace.specs.Faults.{IsFault};

use sb_exec::{BusStop, Effect, execute, fetch_insn, first_insn};
use sb_insn::{Insn, Regs};
use sb_memory::{Access, Linear};
use sb_state::{PlainBus, PlainState, page_for_access};

/// The instruction at an address, in a view of a thread, where it ends in the page in which it begins.
fn fetch_in_page(state: &PlainState, thread: u32, view: u32, rip: u64) -> Option<Insn>
    ensures fetched { IfSome result (λ insn. FetchesOn (plain thread view) state.now rip tt tt (Ok insn)) }
    ensures valid { IfSome result IsValid }
{
    match page_for_access(state, thread, view, Linear(rip), Access::Fetch) {
        Ok((_, page)) => {
            let (_, rest) = page.bytes.items().split_at((rip % 4096) as usize);
            first_insn(rest)
        }
        Err(_) => None,
    }
}

/// The instruction at an address, in a view of a thread.
///
/// # Errors
///
/// A fault: a byte that cannot be fetched, or bytes with which no instruction begins.
pub fn fetch_next(state: &mut PlainState, thread: u32, view: u16, rip: u64) -> Result<Insn, BusStop>
    ensures fetched { FetchesOn (plain thread view) state.old rip tt tt result }
    ensures valid { IfOk result IsValid }
    ensures fault { IfErr result IsFault }
    ensures same { state.new ≡ state.old }
{
    if let Some(insn) = fetch_in_page(state, thread, u32::from(view), rip) {
        return Ok(insn);
    }
    fetch_insn(&mut PlainBus::new(state, thread, u32::from(view)), rip)
}

/// Executes an instruction in a view of a thread.
///
/// Each effect but `Next` leaves registers and memory as they were.
///
/// # Errors
///
/// A fault, at the first byte that may not be accessed. It leaves registers and memory as they were.
pub fn perform(
    state: &mut PlainState,
    thread: u32,
    view: u16,
    insn: &Insn,
    regs: &mut Regs,
) -> Result<Effect, BusStop>
    requires { IsValid insn.now }
    ensures answer { result ≡ (execution_of (plain thread view) (row_of insn.now regs.old) regs.old state.old tt).answer }
    ensures registers { regs.new ≡ (execution_of (plain thread view) (row_of insn.now regs.old) regs.old state.old tt).registers }
    ensures memory { state.new ≡ (execution_of (plain thread view) (row_of insn.now regs.old) regs.old state.old tt).meaning }
    ensures fault { IfErr result IsFault }
    ensures regs_left { result ≢ Ok Effect.Next → regs.new ≡ regs.old }
    ensures memory_left { result ≢ Ok Effect.Next → state.new ≡ state.old }
{
    execute(
        insn,
        regs,
        &mut PlainBus::new(state, thread, u32::from(view)),
    )
}

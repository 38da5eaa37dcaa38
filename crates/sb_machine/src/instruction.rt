//! One instruction of a core.

ghost use Rattle.std.specs.Prelude.{◌≡◌, ◌≢◌, ◌<◌, length, Ok, IfErr, IfOk};
ghost use Rattle.sb_insn.specs.Grammar.{IsValid};
ghost use Rattle.sb_trace.specs.Faults.{IsFault};
ghost use Rattle.sb_trace.specs.State.{State};
ghost use Rattle.sb_machine.specs.Machine.{state_at};
ghost use Rattle.sb_machine.specs.StandsFor.{IsMachineOf};
ghost use Rattle.sb_machine.specs.Written.{FetchesNext, execution_on};

use crate::parts::Parts;
use sb_bus::BusStop;
use sb_core_bus::CoreBus;
use sb_exec::{Effect, execute};
use sb_insn::{Insn, Regs};

/// The instruction at RIP of a core.
///
/// # Errors
///
/// A fault: a byte that cannot be fetched, or bytes with which no instruction begins.
pub fn fetch_next(parts: &mut Parts, number: u8) -> Result<Insn, BusStop>
    requires there { number < length parts.old.cores }
    requires stands { (state : State) × IsMachineOf parts.old state }
    ensures fetched { FetchesNext parts.old number result }
    ensures valid { IfOk result IsValid }
    ensures fault { IfErr result IsFault }
    ensures same { parts.new ≡ parts.old }
{
    let state = parts.core(number).state;
    sb_core_bus::fetch_next(&mut parts.memory, state.eptp, state.cr3, state.regs.rip)
}

/// Executes an instruction, from the registers of a core, on what it sees.
///
/// The core keeps its registers until they are put. Each effect but `Next` leaves registers and memory as they were.
///
/// # Errors
///
/// A fault, at the first byte that may not be accessed. It leaves registers and memory as they were.
pub fn perform(
    parts: &mut Parts,
    number: u8,
    insn: &Insn,
    regs: &mut Regs,
) -> Result<Effect, BusStop>
    requires there { number < length parts.old.cores }
    requires stands { (state : State) × IsMachineOf parts.old state }
    requires valid { IsValid insn.now }
    requires regs { regs.old ≡ (state_at parts.old number).regs }
    ensures answer { result ≡ (execution_on parts.old number insn.now).answer }
    ensures registers { regs.new ≡ (execution_on parts.old number insn.now).registers }
    ensures memory { parts.new
        ≡ record parts.old { memory = (execution_on parts.old number insn.now).meaning.physical } }
    ensures fault { IfErr result IsFault }
    ensures left { result ≢ Ok Effect.Next → parts.new ≡ parts.old }
{
    let state = parts.core(number).state;
    execute(
        insn,
        regs,
        &mut CoreBus::new(&mut parts.memory, state.eptp, state.cr3),
    )
}

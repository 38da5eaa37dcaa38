//! Values of registers, as the kernel reads and puts them.

ghost use Rattle.std.specs.Prelude.{◌≡◌};
ghost use Rattle.sb_abi.specs.Numbers.{status_number};
ghost use Rattle.sb_state.specs.Registers.{eax, ecx, entry_regs, refusal_regs, zero_flags};
ghost use Rattle.sb_state.specs.Start.{start_registers};

use sb_abi::{
    CallStatus, FIRST_STACK_TOP, RETURN_ADDRESS, STACK_DISTANCE, STACKS_ADDRESS, THREAD_DISTANCE,
};
use sb_insn::registers::{R9, R10, RAX, RCX, RDI, RSP};
use sb_insn::{Flags, Regs};

/// The leaf of VMFUNC (SDM volume 3, section 25.5.6): the lower 32 bits of RAX.
pub fn eax(regs: &Regs) -> u32
    ensures { result ≡ eax regs.now }
{
    (regs.general[RAX] % (1 << 32)) as u32
}

/// The index of EPTP switching: the lower 32 bits of RCX.
pub fn ecx(regs: &Regs) -> u32
    ensures { result ≡ ecx regs.now }
{
    (regs.general[RCX] % (1 << 32)) as u32
}

/// The flags of a logical instruction whose result is 0.
pub fn zero_flags() -> Flags
    ensures { result ≡ zero_flags }
{
    Flags {
        pf: true,
        zf: true,
        ..Flags::CLEAR
    }
}

/// The registers of a call that is refused with a status: the thread goes on at home, behind the VMFUNC there.
#[tactic(auto, unfolding(crate::specs::Registers::refusal_regs))]
pub fn refusal_regs(regs: &Regs, status: CallStatus) -> Regs
    ensures { result ≡ refusal_regs regs.now (status_number status) }
{
    let mut general = regs.general;
    general[R9] = status.number();
    general[RAX] = 0;
    general[RCX] = 0;
    general[R10] = 0;
    Regs {
        general,
        rip: RETURN_ADDRESS,
        flags: zero_flags(),
    }
}

/// The registers of a call that is entered: the thread is at the handler, on the server's stack of this number.
#[tactic(auto, unfolding(crate::specs::Registers::entry_regs))]
pub fn entry_regs(regs: &Regs, stack: u32, handler: u64) -> Regs
    ensures { result ≡ entry_regs regs.now stack handler }
{
    let mut general = regs.general;
    general[RSP] = FIRST_STACK_TOP + u64::from(stack) * STACK_DISTANCE;
    general[RAX] = 0;
    general[RCX] = 0;
    general[R10] = 0;
    Regs {
        general,
        rip: handler,
        flags: zero_flags(),
    }
}

/// The registers of a thread at its start: RSP is the end of its stack, RDI its number.
#[tactic(auto, unfolding(crate::specs::Start::start_registers))]
pub fn start_registers(thread: u32, address: u64) -> Regs
    ensures { result ≡ start_registers thread address }
{
    let mut general = [0u64; 16];
    general[RSP] = STACKS_ADDRESS + (u64::from(thread) + 1) * THREAD_DISTANCE;
    general[RDI] = u64::from(thread);
    Regs {
        general,
        rip: address,
        flags: Flags::CLEAR,
    }
}

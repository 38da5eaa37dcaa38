//! The registers that a system call leaves.

ghost use Rattle.std.specs.Prelude.{◌≡◌};
ghost use Rattle.sb_calls.specs.SyscallRegisters.{after_syscall, regs_with_answer, regs_after_bind, server_fault_regs};

use crate::views::buffer_address;
use sb_abi::{CallStatus, RETURN_ADDRESS};
use sb_insn::registers::{R8, R9, R10, R11, RAX, RCX, RDX};
use sb_insn::{Flags, Regs};

/// Bit 1 of RFLAGS, which is always set, and bit 9, IF.
const FIXED_FLAGS: u64 = 0x202;

/// The registers after a SYSCALL whose next instruction is at this address: it goes into RCX, and the flags into R11 (SDM
/// volume 2, SYSCALL).
pub fn after_syscall(address: u64, regs: &Regs) -> Regs
    ensures { result ≡ after_syscall address regs.now }
{
    let mut general = regs.general;
    general[RCX] = address;
    general[R11] = regs.flags.image() + FIXED_FLAGS;
    Regs {
        general,
        rip: address,
        flags: regs.flags,
    }
}

/// The registers with the answer of a call in RAX, and a second value in RDX.
pub fn regs_with_answer(regs: &Regs, answer: u64, second: u64) -> Regs
    ensures { result ≡ regs_with_answer regs.now answer second }
{
    let mut general = regs.general;
    general[RAX] = answer;
    general[RDX] = second;
    Regs { general, ..*regs }
}

/// The registers after a bind of a thread: RAX is 0, RDX the index of the view, R8 its key, and R10 the address of its
/// buffer.
pub fn regs_after_bind(regs: &Regs, thread: u8, index: u16, key: u64) -> Regs
    ensures { result ≡ regs_after_bind regs.now thread index key }
{
    let mut general = regs.general;
    general[RAX] = 0;
    general[RDX] = u64::from(index);
    general[R8] = key;
    general[R10] = buffer_address(thread, index);
    Regs { general, ..*regs }
}

/// The registers of a thread that is sent home from a server's view: 0 but for the status in R9 and RIP, so that nothing of
/// the server is left in them.
#[tactic(auto, unfolding(crate::specs::SyscallRegisters::server_fault_regs))]
pub fn server_fault_regs() -> Regs
    ensures { result ≡ server_fault_regs }
{
    let mut general = [0; 16];
    general[R9] = CallStatus::ServerFault.number();
    Regs {
        general,
        rip: RETURN_ADDRESS,
        flags: Flags::CLEAR,
    }
}

//! Registers of a system call.

ghost use Rattle.std.specs.Prelude.{◌≡◌};
ghost use Rattle.sb_calls.specs.SyscallRegisters.{regs_with_answer};
ghost use Rattle.sb_sub.specs.BindingTold.{binding_answer, binding_regs};
ghost use Rattle.sb_sub.specs.Serving.{entered};

use sb_abi::CallRefusal;
use sb_calls::{after_syscall, regs_after_bind, regs_with_answer};
use sb_insn::Regs;
use sb_state::Binding;

/// The registers after SYSCALL, of a thread that stands at the next instruction.
pub fn entered(regs: &Regs) -> Regs
    ensures { result ≡ entered regs.now }
{
    after_syscall(regs.rip, regs)
}

/// The thread goes on after SYSCALL, with an answer and a second value.
pub fn go_on(regs: &mut Regs, answer: u64, second: u64)
    ensures { regs.new ≡ regs_with_answer (entered regs.old) answer second }
{
    *regs = regs_with_answer(&entered(regs), answer, second);
}

/// The thread goes on after a bind: the registers tell the binding, or why it was refused. Gives the answer.
pub fn tell_binding(regs: &mut Regs, thread: u8, bound: Result<Binding, CallRefusal>) -> u64
    ensures answer { result ≡ binding_answer bound }
    ensures regs { regs.new ≡ binding_regs (entered regs.old) thread bound }
{
    match bound {
        Ok(binding) => {
            *regs = regs_after_bind(&entered(regs), thread, binding.index, binding.key);
            0
        }
        Err(refusal) => {
            let answer = refusal.number();
            go_on(regs, answer, 0);
            answer
        }
    }
}

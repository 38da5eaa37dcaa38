//! A system call of a core.

ghost use Rattle.std.specs.Prelude.{◌≡◌, ◌<◌, length};
ghost use Rattle.sb_insn.specs.Grammar.{IsValid};
ghost use Rattle.sb_trace.specs.State.{State};
ghost use Rattle.sb_sub.specs.Serving.{line_of};
ghost use Rattle.sb_machine.specs.Outcomes.{core_after_call};
ghost use Rattle.sb_machine.specs.StandsFor.{IsMachineOf};
ghost use Rattle.sb_machine.specs.Written.{Calls};

use crate::outcome::{home_eptp, home_state};
use crate::parts::Parts;
use crate::processor::{Core, CoreState};
use crate::vmfunc::regs_behind;
use sb_insn::{Insn, Regs};
use sb_state::EndKind;
use sb_sub::Answer;
use sb_trace::Event;

/// The line of an answer.
fn line_of(answer: Answer) -> Event
    ensures { result ≡ line_of answer }
{
    match answer {
        Answer::Back { number, answer } => Event::Sys { number, answer },
        Answer::Printed(value) => Event::Printed { value },
        Answer::Ended(status) => Event::Exit { status },
        Answer::GoHome(status) => Event::ServerExit { status },
    }
}

/// The core after a call with this answer, which left these registers; `home` is the pointer of its home view.
fn core_after_call(answer: Answer, home: u64, core: &Core, regs: Regs) -> Core
    ensures { result ≡ core_after_call answer home core.now regs }
{
    let going_on = CoreState { regs, ..core.state };
    match answer {
        Answer::Back { .. } | Answer::Printed(_) => Core {
            state: going_on,
            ..*core
        },
        Answer::Ended(status) => Core {
            state: going_on,
            end: EndKind::Ended(status),
            ..*core
        },
        Answer::GoHome(_) => Core {
            state: home_state(home, &core.state, regs),
            ..*core
        },
    }
}

/// SYSCALL of a core, and its line.
#[tactic(auto, using(crate::proofs::Places::home_word, crate::proofs::Places::kernel_stands, crate::proofs::Places::seat_there))]
pub fn system_call(parts: &mut Parts, number: u8, insn: &Insn) -> Event
    requires there { number < length parts.old.cores }
    requires valid { IsValid insn.now }
    requires stands { (state : State) × IsMachineOf parts.old state }
    ensures { Calls parts.old number insn.now result parts.new }
{
    let core = parts.core(number);
    let home = home_eptp(&parts.memory, &core.state);
    let mut regs = regs_behind(insn, &core.state.regs);
    let Parts {
        memory,
        book,
        root,
        kernel,
        ..
    } = parts;
    let answer = kernel.serve(memory, book, root, number, core.state.view, &mut regs);
    parts.set_core(number, core_after_call(answer, home, &core, regs));
    line_of(answer)
}

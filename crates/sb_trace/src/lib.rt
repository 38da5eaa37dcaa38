//! What a run of the machine says: its lines, its last state, and the text of the report; and the plain machine, defined.
//!
//! Inside: `Line` and `Event`, one line for each entry of a schedule; `EndState`, what each thread is at the end;
//! `report_text`, the bytes of the report; and the definitions of a run over any machine (`specs/Run.antt`) and of the
//! plain machine over the states of `sb_state` (`specs/`): its step (Step), the mark that the line of an instruction gets
//! (Marks, and `mark`), its runs and the texts that are written of them (Runs), and what the kernel does in a step: calls and
//! returns in one step (KernelCall), the landing that stands for them (Flight), and system calls (Syscall, and SyscallRegister,
//! SyscallBind and SyscallProtect); what a step may change (Changes), which pages there are (Table), and what holds in each
//! state of a run (Sound); and the laws of its runs, each the contract of a function of `laws` (docs/LAWS.md). Not inside: the
//! state, its start and its memory (`sb_state`), what decides a call (`sb_calls`), and code that steps (`sb_plain`).
//!
//! A line is the core and what happened there, as in `0 step 400000`. Addresses are hexadecimal, all other numbers
//! decimal (docs/FORMATS.md, "The report").
#![tactic(auto)]

mod end;
mod event;
mod laws;
mod mark;
mod report;

pub use end::{EndState, ThreadEnd, ThreadEnds};
pub use event::{Event, Line, Lines, is_landing};
pub use laws::{
    added_pages_are_new, flights_decide, landings_can_be_dropped, one_pattern, runs_have_one_text,
    start_is_sound, steps_change, steps_keep_sound,
};
pub use mark::{line_of_mark, mark_without_text, touches_scratch};
pub use report::{push_end, push_line, report_head, report_text};
pub use sb_abi::VMFUNC_PHASE;
pub use sb_state::{
    Binding, Bindings, Decision, EndKind, Flight, Mode, Page, PageBytes, PageName, Registration,
    SeenPage, Thread,
};

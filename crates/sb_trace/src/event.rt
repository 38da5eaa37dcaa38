//! Lines and events.

ghost use Rattle.std.specs.Prelude.{◌≡◌, ◌↔◌, IsTrue};
ghost use Rattle.sb_trace.specs.Landing.{IsLanding};

use sb_abi::VMFUNC_PHASE;
use sb_exec::FaultKind;
use sb_list::Listed;
use std::fmt;

/// What one step of a core did.
#[derive(Clone, Copy, Debug, PartialEq, Eq)]
pub enum Event {
    /// An instruction, which stood at `rip`.
    Step { rip: u64 },
    /// An instruction that the rewriter added, which stood at `rip`.
    Extra { rip: u64 },
    /// An instruction that strayed from the listed ones or into the scratch page, which stood at `rip`.
    Stray { rip: u64 },
    /// System call 1 printed a value.
    Printed { value: u64 },
    /// Another system call and its answer: 0, or the number of a refusal.
    Sys { number: u64, answer: u64 },
    /// System call 0 ended the thread.
    Exit { status: u64 },
    /// A fault ended the thread.
    Fault { kind: FaultKind, at: u64 },
    /// A fault in a server's view sent the thread home.
    ServerFault { kind: FaultKind, at: u64 },
    /// System call 0 in a server's view sent the thread home.
    ServerExit { status: u64 },
    /// A call entered the server of a binding, on one of its stacks.
    Entered { index: u32, slot: u8 },
    /// A call was refused, since its key is not that of the binding.
    WrongKey { index: u32 },
    /// A call was refused, since each stack of the server was taken.
    PoolEmpty { index: u32 },
    /// VMFUNC in the home view with an index, other than 0, that is no binding.
    Unbound { index: u32 },
    /// VMFUNC in the home view with a leaf other than 0.
    BadLeaf { index: u32 },
    /// VMFUNC out of a server's view to the home view.
    Return,
    /// VMFUNC from the home view to the home view.
    Turn,
    /// An instruction of a landing before or after its deciding one; `VMFUNC_PHASE` is the VMFUNC into the server.
    Landing { phase: u8 },
    /// The thread had ended.
    Idle,
}

/// One line of the report: what a step of this core did.
#[derive(Clone, Copy, Debug, PartialEq, Eq)]
pub struct Line {
    pub core: u8,
    pub event: Event,
}

/// Lines in the order of the schedule.
pub type Lines = Listed<Line>;

/// Whether the line belongs to a landing, so that the report of a machine that calls in one step does not have it.
pub fn is_landing(line: &Line) -> bool
    ensures { IsTrue result ↔ IsLanding line.now.event }
{
    matches!(line.event, Event::Landing { .. })
}

impl fmt::Display for Event {
    ghost use Rattle.std.specs.Prelude.{Some};
    ghost use Rattle.sb_trace.specs.EventText.{event_text};

    ghost output = { λ event. Some (event_text event) };

    fn fmt<W: fmt::Write>(&self, f: &mut fmt::Formatter<W>) -> fmt::Result {
        match self {
            Event::Step { rip } => write!(f, "step {rip:x}"),
            Event::Extra { rip } => write!(f, "extra {rip:x}"),
            Event::Stray { rip } => write!(f, "stray {rip:x}"),
            Event::Printed { value } => write!(f, "print {value}"),
            Event::Sys { number, answer } => write!(f, "sys {number} {answer}"),
            Event::Exit { status } => write!(f, "exit {status}"),
            Event::Fault { kind, at } => write!(f, "fault {kind} {at:x}"),
            Event::ServerFault { kind, at } => write!(f, "server fault {kind} {at:x}"),
            Event::ServerExit { status } => write!(f, "server exit {status}"),
            Event::Entered { index, slot } => write!(f, "call {index} entered {slot}"),
            Event::WrongKey { index } => write!(f, "call {index} wrong key"),
            Event::PoolEmpty { index } => write!(f, "call {index} pool empty"),
            Event::Unbound { index } => write!(f, "call {index} unbound"),
            Event::BadLeaf { index } => write!(f, "call {index} bad leaf"),
            Event::Return => write!(f, "return"),
            Event::Turn => write!(f, "turn"),
            Event::Landing { phase } => match *phase {
                VMFUNC_PHASE => write!(f, "landing v"),
                number => write!(f, "landing {number}"),
            },
            Event::Idle => write!(f, "idle"),
        }
    }
}

impl fmt::Display for Line {
    ghost use Rattle.std.specs.Prelude.{Some};
    ghost use Rattle.sb_trace.specs.EventText.{line_text};

    ghost output = { λ line. Some (line_text line) };

    fn fmt<W: fmt::Write>(&self, f: &mut fmt::Formatter<W>) -> fmt::Result {
        let core = self.core;
        let event = self.event;
        write!(f, "{core} {event}")
    }
}

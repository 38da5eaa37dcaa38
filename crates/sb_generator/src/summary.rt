//! The summary of a run: how many lines of each kind its report has.

ghost use Rattle.std.specs.Prelude.{◌≡◌, ◌++◌, IfOk, OnOk, flat_map, string_bytes};
ghost use Rattle.sb_generator.specs.Summary.{counts_as, count_of, count_line, counts_text, summary_text};

use sb_trace::{EndState, Event, Line, Lines};
use std::alloc::{AllocError, Global};
use std::fmt;

/// What a line of a report counts as.
#[derive(Clone, Copy, Debug, PartialEq, Eq)]
enum LineKind {
    /// An instruction: listed, added by the rewriter, or strayed.
    Step,
    Print,
    /// A system call that neither prints nor exits.
    Sys,
    Exit,
    Fault,
    ServerFault,
    ServerExit,
    Entered,
    WrongKey,
    PoolEmpty,
    Unbound,
    BadLeaf,
    Return,
    Turn,
    Landing,
    Idle,
}

/// All kinds, in the order of the summary.
const KINDS: [LineKind; 16] = [
    LineKind::Step,
    LineKind::Print,
    LineKind::Sys,
    LineKind::Exit,
    LineKind::Fault,
    LineKind::ServerFault,
    LineKind::ServerExit,
    LineKind::Entered,
    LineKind::WrongKey,
    LineKind::PoolEmpty,
    LineKind::Unbound,
    LineKind::BadLeaf,
    LineKind::Return,
    LineKind::Turn,
    LineKind::Landing,
    LineKind::Idle,
];

impl fmt::Display for LineKind {
    ghost use Rattle.std.specs.Prelude.{Some};
    ghost use Rattle.sb_generator.specs.Summary.{kind_text};

    ghost output = { λ kind. Some (kind_text kind) };

    fn fmt<W: fmt::Write>(&self, f: &mut fmt::Formatter<W>) -> fmt::Result {
        f.write_str(match self {
            LineKind::Step => "step",
            LineKind::Print => "print",
            LineKind::Sys => "sys",
            LineKind::Exit => "exit",
            LineKind::Fault => "fault",
            LineKind::ServerFault => "server fault",
            LineKind::ServerExit => "server exit",
            LineKind::Entered => "entered",
            LineKind::WrongKey => "wrong key",
            LineKind::PoolEmpty => "pool empty",
            LineKind::Unbound => "unbound",
            LineKind::BadLeaf => "bad leaf",
            LineKind::Return => "return",
            LineKind::Turn => "turn",
            LineKind::Landing => "landing",
            LineKind::Idle => "idle",
        })
    }
}

/// Whether a line with this event counts as one of the kind.
fn counts_as(kind: LineKind, event: Event) -> bool
    ensures { result ≡ counts_as kind event }
{
    match event {
        Event::Step { .. } | Event::Extra { .. } | Event::Stray { .. } => matches!(
            kind,
            LineKind::Step
        ),
        Event::Printed { .. } => matches!(kind, LineKind::Print),
        Event::Sys { .. } => matches!(kind, LineKind::Sys),
        Event::Exit { .. } => matches!(kind, LineKind::Exit),
        Event::Fault { .. } => matches!(kind, LineKind::Fault),
        Event::ServerFault { .. } => matches!(kind, LineKind::ServerFault),
        Event::ServerExit { .. } => matches!(kind, LineKind::ServerExit),
        Event::Entered { .. } => matches!(kind, LineKind::Entered),
        Event::WrongKey { .. } => matches!(kind, LineKind::WrongKey),
        Event::PoolEmpty { .. } => matches!(kind, LineKind::PoolEmpty),
        Event::Unbound { .. } => matches!(kind, LineKind::Unbound),
        Event::BadLeaf { .. } => matches!(kind, LineKind::BadLeaf),
        Event::Return => matches!(kind, LineKind::Return),
        Event::Turn => matches!(kind, LineKind::Turn),
        Event::Landing { .. } => matches!(kind, LineKind::Landing),
        Event::Idle => matches!(kind, LineKind::Idle),
    }
}

/// How many lines are of the kind.
fn count_of(lines: &[Line], kind: LineKind) -> usize
    ensures { result ≡ count_of lines.now kind }
{
    let mut count = 0;
    for line in lines {
        if counts_as(kind, line.event) {
            count += 1;
        }
    }
    count
}

/// Puts a line for each of these kinds.
fn push_counts(out: &mut String, lines: &[Line], kinds: &[LineKind]) -> Result<(), AllocError>
    ensures { OnOk result (string_bytes out.new ≡ string_bytes out.old ++ flat_map (count_line lines.now) kinds.now) }
{
    for kind in kinds {
        let count = count_of(lines, *kind);
        write!(out, "{kind} {count}\n")?;
    }
    Ok(())
}

/// Puts a line for each kind.
#[tactic(auto, unfolding(crate::specs::Summary::counts_text))]
fn push_all_counts(out: &mut String, lines: &[Line]) -> Result<(), AllocError>
    ensures { OnOk result (string_bytes out.new ≡ string_bytes out.old ++ counts_text lines.now) }
{
    push_counts(out, lines, &KINDS)
}

/// The summary of a run with these lines and this last state, of the bundle that is generated from the number.
pub fn summary_text(
    alloc: Global,
    number: u64,
    lines: &Lines,
    end: &EndState,
) -> Result<String, AllocError>
    ensures { IfOk result (λ text. string_bytes text ≡ summary_text number lines.now end.now) }
{
    let mut out = String::new(alloc);
    write!(out, "gen {number}\n")?;
    push_all_counts(&mut out, lines.items())?;
    let free = end.free;
    write!(out, "free {free}\nend\n")?;
    Ok(out)
}

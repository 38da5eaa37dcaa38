//! The text of the report.

ghost use Rattle.std.specs.Prelude.{◌≡◌, ◌++◌, OnOk, IfOk, codes, string_bytes};
ghost use Rattle.sb_state.specs.EndText.{hex};
ghost use Rattle.sb_trace.specs.EventText.{phase_text};
ghost use Rattle.sb_trace.specs.Report.{line_feed, whole_line, lines_text, thread_line, regs_line, registers_text, flight_line, thread_text, threads_text, counts_text, report_text};

use crate::end::{EndState, ThreadEnd};
use crate::event::{Event, Line, Lines};
use sb_abi::VMFUNC_PHASE;
use sb_insn::Regs;
use sb_text::{push_decimal, push_hex};
use std::alloc::{AllocError, Global};

/// As many bytes as most lines of steps have.
const LINE_SIZE: usize = 14;

/// Room for the head line, the threads at the end and the counts.
const FRAME_SIZE: usize = 4096;

/// Puts words, an address behind them, and a line feed.
fn push_address_line(out: &mut String, words: &str, at: u64) -> Result<(), AllocError>
    ensures { OnOk result (string_bytes out.new ≡ string_bytes out.old ++ (words.now ++ (hex at ++ line_feed))) }
{
    out.push_str(words)?;
    push_hex(out, at)?;
    out.push_str("\n")
}

/// Puts the rest of the line of a landing, behind its core.
fn push_landing(out: &mut String, phase: u8) -> Result<(), AllocError>
    ensures { OnOk result (string_bytes out.new ≡ string_bytes out.old ++ (codes " landing " ++ (phase_text phase ++ line_feed))) }
{
    out.push_str(" landing ")?;
    match phase {
        VMFUNC_PHASE => out.push_str("v")?,
        number => push_decimal(out, u64::from(number))?,
    }
    out.push_str("\n")
}

/// Puts the line of one step and a line feed behind a text. The lines of which a run has most go without a formatter.
pub fn push_line(out: &mut String, line: &Line) -> Result<(), AllocError>
    ensures { OnOk result (string_bytes out.new ≡ string_bytes out.old ++ whole_line line.now) }
{
    push_decimal(out, u64::from(line.core))?;
    match line.event {
        Event::Step { rip } => push_address_line(out, " step ", rip),
        Event::Extra { rip } => push_address_line(out, " extra ", rip),
        Event::Stray { rip } => push_address_line(out, " stray ", rip),
        Event::Landing { phase } => push_landing(out, phase),
        Event::Return => out.push_str(" return\n"),
        Event::Idle => out.push_str(" idle\n"),
        event => writeln!(out, " {event}"),
    }
}

fn push_lines(out: &mut String, lines: &[Line]) -> Result<(), AllocError>
    ensures { OnOk result (string_bytes out.new ≡ string_bytes out.old ++ lines_text lines.now) }
{
    for line in lines {
        push_line(out, line)?;
    }
    Ok(())
}

fn push_thread_line(out: &mut String, number: usize, thread: &ThreadEnd) -> Result<(), AllocError>
    ensures { OnOk result (string_bytes out.new ≡ string_bytes out.old ++ thread_line number thread.now) }
{
    let home = thread.home;
    let view = thread.view;
    let present = thread.present;
    let state = thread.state;
    writeln!(
        out,
        "thread {number} home {home} view {view} at {present} {state}"
    )?;
    Ok(())
}

fn push_registers(out: &mut String, general: &[u64]) -> Result<(), AllocError>
    ensures { OnOk result (string_bytes out.new ≡ string_bytes out.old ++ registers_text general.now) }
{
    for value in general {
        write!(out, " {value:x}")?;
    }
    Ok(())
}

fn push_regs_line(out: &mut String, number: usize, regs: &Regs) -> Result<(), AllocError>
    ensures { OnOk result (string_bytes out.new ≡ string_bytes out.old ++ regs_line number regs.now) }
{
    let rip = regs.rip;
    let flags = regs.flags.image();
    write!(out, "regs {number} rip {rip:x} flags {flags:x}")?;
    push_registers(out, &regs.general)?;
    out.push_str("\n")?;
    Ok(())
}

fn push_flight_line(out: &mut String, number: usize, flight: Option<u8>) -> Result<(), AllocError>
    ensures { OnOk result (string_bytes out.new ≡ string_bytes out.old ++ flight_line number flight) }
{
    match flight {
        None => Ok(()),
        Some(phase) => writeln!(out, "flight {number} {phase}"),
    }
}

fn push_thread(out: &mut String, number: usize, thread: &ThreadEnd) -> Result<(), AllocError>
    ensures { OnOk result (string_bytes out.new ≡ string_bytes out.old ++ thread_text number thread.now) }
{
    push_thread_line(out, number, thread)?;
    push_regs_line(out, number, &thread.regs)?;
    push_flight_line(out, number, thread.flight)
}

fn push_threads(out: &mut String, threads: &[ThreadEnd]) -> Result<(), AllocError>
    ensures { OnOk result (string_bytes out.new ≡ string_bytes out.old ++ threads_text 0 threads.now) }
{
    for (number, thread) in threads.iter().enumerate() {
        push_thread(out, number, thread)?;
    }
    Ok(())
}

fn push_counts(out: &mut String, end: &EndState) -> Result<(), AllocError>
    ensures { OnOk result (string_bytes out.new ≡ string_bytes out.old ++ counts_text end.now) }
{
    let free = end.free;
    let keys = end.keys;
    write!(out, "free {free}\nkeys {keys}\nend\n")?;
    Ok(())
}

/// Puts the last lines of the report behind a text: the threads at the end, and the counts of what is left.
pub fn push_end(out: &mut String, end: &EndState) -> Result<(), AllocError>
    ensures { OnOk result (string_bytes out.new ≡ string_bytes out.old ++ (threads_text 0 end.now.threads ++ counts_text end.now)) }
{
    push_threads(out, end.threads.items())?;
    push_counts(out, end)
}

/// The head line of the report, with room behind it for the lines of so many steps.
pub fn report_head(alloc: Global, steps: usize) -> Result<String, AllocError>
    ensures { IfOk result (λ text. string_bytes text ≡ codes "skybridge report 1\n") }
{
    let room = steps.saturating_mul(LINE_SIZE).saturating_add(FRAME_SIZE);
    let mut out = String::with_capacity(alloc, room)?;
    out.push_str("skybridge report 1\n")?;
    Ok(out)
}

/// The report: a head line, a line for each step, the threads at the end, and the counts of what is left.
pub fn report_text(alloc: Global, lines: &Lines, end: &EndState) -> Result<String, AllocError>
    ensures { IfOk result (λ text. string_bytes text ≡ report_text lines.now end.now) }
{
    let mut out = report_head(alloc, lines.items().len())?;
    push_lines(&mut out, lines.items())?;
    push_end(&mut out, end)?;
    Ok(out)
}

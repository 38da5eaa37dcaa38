//! What is written of a run.

ghost use Rattle.std.specs.Prelude.{◌≡◌, ◌+◌, ◌++◌, length, OnOk, IfOk, string_bytes};
ghost use Rattle.sb_trace.specs.Report.{report_text};
ghost use Rattle.sb_book.specs.History.{IsDone};
ghost use Rattle.skycores.specs.Text.{journal_text, digits_text, word_text, IsOutputFor};

use crate::words::Run;
use sb_book::History;
use sb_machine::Machine;
use sb_trace::{EndState, Line, Lines, report_text};
use std::alloc::{AllocError, Global};

/// The cores as digits, 64 in a line.
fn push_digits(out: &mut String, journal: &[u8]) -> Result<(), AllocError>
    ensures { OnOk result (string_bytes out.new ≡ string_bytes out.old ++ digits_text 0 journal.now) }
{
    for (at, core) in journal.iter().enumerate() {
        write!(out, "{core}")?;
        if (at + 1) % 64 == 0 {
            out.push_str("\n")?;
        }
    }
    if journal.len() % 64 != 0 {
        out.push_str("\n")?;
    }
    Ok(())
}

fn push_journal(out: &mut String, journal: &[u8]) -> Result<(), AllocError>
    ensures { OnOk result (string_bytes out.new ≡ string_bytes out.old ++ journal_text journal.now) }
{
    let count = journal.len();
    write!(out, "journal {count}\n")?;
    push_digits(out, journal)
}

fn push_word(out: &mut String, ended: bool) -> Result<(), AllocError>
    ensures { OnOk result (string_bytes out.new ≡ string_bytes out.old ++ word_text ended) }
{
    if ended {
        out.push_str("ended\n")
    } else {
        out.push_str("budget\n")
    }
}

fn report_of(alloc: Global, lines: Vec<Line>, end: &EndState) -> Result<String, AllocError>
    ensures { IfOk result (λ text. string_bytes text ≡ report_text lines.items end.now) }
{
    let lines = Lines::new(lines);
    report_text(alloc, &lines, end)
}

fn text_of_parts(
    alloc: Global,
    journal: Vec<u8>,
    ended: bool,
    lines: Vec<Line>,
    end: &EndState,
) -> Result<String, AllocError>
    ensures { IfOk result (λ text. string_bytes text ≡ journal_text journal.items ++ (word_text ended ++ report_text lines.items end.now)) }
{
    let report = report_of(alloc, lines, end)?;
    let mut out = String::new(alloc);
    push_journal(&mut out, &journal)?;
    push_word(&mut out, ended)?;
    out.push_str(report.as_str())?;
    Ok(out)
}

/// The journal of a history in which nothing is left to do, whether each thread has ended, and the report; and the machine.
#[tactic(auto, using(crate::proofs::Outputs::is_output))]
pub fn output_text(
    alloc: Global,
    history: History,
    run: &Run,
) -> Result<(String, Machine), AllocError>
    requires done { IsDone history }
    requires limit { length history.journal + history.room ≡ run.now.steps }
    ensures { IfOk result (λ made. IsOutputFor history.load run.now (string_bytes made.0) made.1) }
{
    let ended = history.all_ended();
    let _ = history.lines();
    let end = history.machine().end(alloc)?;
    let (journal, lines, machine) = history.into_parts();
    let text = text_of_parts(alloc, journal, ended, lines, &end)?;
    Ok((text, machine))
}

//! A run of the machine with page tables on the schedule of a bundle.

ghost use Rattle.std.specs.Prelude.{◌≡◌, [], IfOk, OnOk, string_bytes};
ghost use Rattle.sb_load.specs.FirstState.{first_state};
ghost use Rattle.sb_load.specs.Loading.{IsLoadable};
ghost use Rattle.sb_machine.specs.Ran.{HasRun};
ghost use Rattle.sb_trace.specs.Report.{report_text};
ghost use Rattle.skybridge.specs.Runs.{HasRunWithText, HasRunWithLines, IsTextOfMachineRun, IsEndOfMachineRun};

use sb_load::Loaded;
use sb_machine::Machine;
use sb_trace::{EndState, Lines, push_end, push_line, report_head};
use std::alloc::{AllocError, Global};

// ---- with the report

/// A step for each entry of the schedule, whose line goes behind the text at once.
fn push_run(
    out: &mut String,
    machine: &mut Machine,
    loaded: &Loaded,
    schedule: &[u8],
) -> Result<(), AllocError>
    requires schedule { schedule.now ≡ loaded.now.bundle.schedule }
    requires loadable { IsLoadable loaded.now }
    requires first { HasRun machine.old loaded.now [] [] (first_state loaded.now) }
    ensures { OnOk result
        (HasRunWithText machine.new loaded.now loaded.now.bundle.schedule (string_bytes out.old) (string_bytes out.new)) }
{
    for core in schedule {
        push_line(out, &machine.step(*core))?;
    }
    Ok(())
}

/// The machine that has made the run of what was loaded on the bundle's schedule, and the report of the run.
pub fn machine_report(alloc: Global, loaded: &Loaded) -> Result<(String, Machine), AllocError>
    requires { IsLoadable loaded.now }
    ensures { IfOk result (λ run. IsTextOfMachineRun report_text run.1 loaded.now (string_bytes run.0)) }
{
    let mut machine = Machine::new(alloc, loaded)?;
    let schedule = loaded.bundle().schedule.items();
    let mut out = report_head(alloc, schedule.len())?;
    push_run(&mut out, &mut machine, loaded, schedule)?;
    let end = machine.end(alloc)?;
    push_end(&mut out, &end)?;
    Ok((out, machine))
}

// ---- with the lines

/// A step for each entry of the schedule.
fn run(
    alloc: Global,
    machine: &mut Machine,
    loaded: &Loaded,
    schedule: &[u8],
) -> Result<Lines, AllocError>
    requires schedule { schedule.now ≡ loaded.now.bundle.schedule }
    requires loadable { IsLoadable loaded.now }
    requires first { HasRun machine.old loaded.now [] [] (first_state loaded.now) }
    ensures { IfOk result (λ lines. HasRunWithLines machine.new loaded.now loaded.now.bundle.schedule lines) }
{
    let mut lines = Vec::with_capacity(alloc, schedule.len())?;
    for core in schedule {
        lines.push(machine.step(*core))?;
    }
    Ok(Lines::new(lines))
}

/// The machine that has made the run of what was loaded on the bundle's schedule, with the lines of the run and its end.
pub fn whole_run(alloc: Global, loaded: &Loaded) -> Result<(Lines, EndState, Machine), AllocError>
    requires { IsLoadable loaded.now }
    ensures { IfOk result (λ run. IsEndOfMachineRun run.2 loaded.now run.0 run.1) }
{
    let mut machine = Machine::new(alloc, loaded)?;
    let lines = run(
        alloc,
        &mut machine,
        loaded,
        loaded.bundle().schedule.items(),
    )?;
    let end = machine.end(alloc)?;
    Ok((lines, end, machine))
}

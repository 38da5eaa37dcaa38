//! A run of the plain machine on the schedule of a bundle.

ghost use Rattle.std.specs.Prelude.{IfOk, OnOk, string_bytes};
ghost use Rattle.sb_load.specs.Loading.{IsLoadable};
ghost use Rattle.skybridge.specs.Runs.{RunsWithText};
ghost use Rattle.skybridge.specs.Output.{IsReport};

use sb_load::Loaded;
use sb_plain::Plain;
use sb_trace::{push_end, push_line, report_head};
use std::alloc::{AllocError, Global};

/// A step for each entry of the schedule, whose line goes behind the text at once.
fn push_run(out: &mut String, plain: &mut Plain, schedule: &[u8]) -> Result<(), AllocError>
    ensures { OnOk result (RunsWithText plain.old schedule.now plain.new (string_bytes out.old) (string_bytes out.new)) }
{
    for core in schedule {
        push_line(out, &plain.step(*core))?;
    }
    Ok(())
}

/// The report of the plain machine's run on the bundle's schedule.
pub fn plain_report(alloc: Global, loaded: &Loaded) -> Result<String, AllocError>
    requires { IsLoadable loaded.now }
    ensures { IfOk result (λ text. IsReport loaded.now.bundle (string_bytes text)) }
{
    let mut plain = Plain::new(alloc, loaded)?;
    let schedule = loaded.bundle().schedule.items();
    let mut out = report_head(alloc, schedule.len())?;
    push_run(&mut out, &mut plain, schedule)?;
    let end = plain.end(alloc)?;
    push_end(&mut out, &end)?;
    Ok(out)
}

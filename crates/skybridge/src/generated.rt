//! What the commands write that read no bundle, but for the help text.

ghost use Rattle.std.specs.Prelude.{◌≡◌, IfOk, string_bytes};
ghost use Rattle.sb_bundle.specs.Spelling.{spelling};
ghost use Rattle.sb_generator.specs.Generator.{generated};
ghost use Rattle.skybridge.specs.Output.{IsSummary};
ghost use Rattle.skybridge.specs.Kept.{HasRunOf};

use crate::machine_run::whole_run;
use sb_bundle::write_bundle;
use sb_generator::{gen_bundle, load_generated, summary_text};
use sb_machine::Machine;
use std::alloc::{AllocError, Global};

/// The summary of the run of that bundle, and the machine that has made it.
pub fn summary(alloc: Global, number: u64) -> Result<(String, Machine), AllocError>
    ensures summary { IfOk result (λ run. IsSummary number (string_bytes run.0)) }
    ensures ran { IfOk result (λ run. HasRunOf run.1 (generated number)) }
{
    let loaded = load_generated(alloc, number)?;
    let (lines, end, machine) = whole_run(alloc, &loaded)?;
    let text = summary_text(alloc, number, &lines, &end)?;
    Ok((text, machine))
}

/// The bytes of that bundle.
pub fn generated_bytes(alloc: Global, number: u64) -> Result<Vec<u8>, AllocError>
    ensures { IfOk result (λ bytes. bytes.items ≡ spelling (generated number)) }
{
    let bundle = gen_bundle(alloc, number)?;
    write_bundle(alloc, &bundle)
}

//! Whether each core starts at an instruction.

ghost use Rattle.std.specs.Prelude.{◌↔◌, ◌<◌, ◌≤◌, IsTrue, length};
ghost use Rattle.std.specs.List.{AllByRecursion};
ghost use Rattle.sb_abi.specs.declared.space.TheConstants.{MAX_THREADS};
ghost use Rattle.sb_bundle.specs.Limits.{IsCoreStart};
ghost use Rattle.sb_load.specs.Loading.{HasEntry};
ghost use Rattle.sb_load.specs.Checks.{ChecksEntries};

use crate::refusal::LoadRefusal;
use sb_bundle::CoreStart;
use sb_rewrite::Rewritten;

/// Whether the core starts at an instruction of its process.
fn has_entry(rewritten: &[Rewritten], core: CoreStart) -> bool
    requires { core.process < length rewritten.now }
    ensures { IsTrue result ↔ HasEntry rewritten.now core }
{
    rewritten[core.process as usize].is_start(core.entry)
}

/// Nothing, or the first core whose entry is no start of an instruction.
pub fn check_entries(rewritten: &[Rewritten], cores: &[CoreStart]) -> Result<(), LoadRefusal>
    requires processes { AllByRecursion (IsCoreStart (length rewritten.now)) cores.now }
    requires count { length cores.now ≤ MAX_THREADS }
    ensures { ChecksEntries rewritten.now cores.now result }
{
    for (number, &core) in cores.iter().enumerate() {
        if !has_entry(rewritten, core) {
            return Err(LoadRefusal::BadEntry {
                core: number as u32,
                at: core.entry,
            });
        }
    }
    Ok(())
}

//! Loading a bundle.

ghost use Rattle.std.specs.Prelude.{◌≡◌, ◌≤◌, length};
ghost use Rattle.std.specs.List.{AllByRecursion};
ghost use Rattle.sb_abi.specs.declared.space.TheConstants.{MAX_PROCESSES};
ghost use Rattle.sb_bundle.specs.Limits.{IsBundle, IsImage};
ghost use Rattle.sb_load.specs.Loading.{Loads};
ghost use Rattle.sb_load.specs.Checks.{refusal_of, RewritesTexts, ChecksFrames, AllSmallAreas};

use crate::entries::check_entries;
use crate::loaded::{Loaded, RewrittenTexts};
use crate::need::need_of;
use crate::refusal::LoadRefusal;
use sb_abi::KEPT_FRAMES;
use sb_bundle::{Bundle, Image};
use sb_rewrite::{RewriteRefusal, Rewritten, rewrite};
use std::alloc::Global;

/// The refusal of a process's text.
fn refusal_of(process: u32, why: RewriteRefusal) -> LoadRefusal
    ensures { result ≡ refusal_of process why }
{
    match why {
        RewriteRefusal::Memory => LoadRefusal::Memory,
        RewriteRefusal::Undecoded { .. }
        | RewriteRefusal::BadTarget { .. }
        | RewriteRefusal::Unmovable { .. }
        | RewriteRefusal::AreaFull { .. } => LoadRefusal::Process { process, why },
    }
}

/// What the texts become, or the first process whose text cannot be rewritten.
fn rewrite_texts(alloc: Global, images: &[Image]) -> Result<RewrittenTexts, LoadRefusal>
    requires images { AllByRecursion IsImage images.now }
    requires count { length images.now ≤ MAX_PROCESSES }
    ensures { RewritesTexts images.now result }
{
    let mut rewritten = Vec::new(alloc);
    for (process, image) in images.iter().enumerate() {
        match rewrite(alloc, image.text.items()) {
            Ok(made) => rewritten.push(made)?,
            Err(why) => return Err(refusal_of(process as u32, why)),
        }
    }
    Ok(RewrittenTexts::new(rewritten))
}

/// How many frames the bundle takes, where it has as many.
fn check_frames(bundle: &Bundle, rewritten: &[Rewritten]) -> Result<u32, LoadRefusal>
    requires bundle { IsBundle bundle.now }
    requires count { length rewritten.now ≤ MAX_PROCESSES }
    requires areas { AllSmallAreas rewritten.now }
    ensures { ChecksFrames bundle.now rewritten.now result }
{
    let need = need_of(bundle, rewritten);
    let have = bundle.frames - KEPT_FRAMES;
    if have < need {
        return Err(LoadRefusal::NoFrames { need, have });
    }
    Ok(need)
}

/// Loads a bundle of the format, of which it makes a copy.
///
/// # Errors
///
/// In this order: `Process` for the first process whose text cannot be rewritten, with the cause; `BadEntry` for the
/// first core whose entry is no start of an instruction of its process; `NoFrames` exactly where there are fewer frames
/// than the bundle takes. `Memory` may come in place of any answer.
pub fn load(alloc: Global, bundle: &Bundle) -> Result<Loaded, LoadRefusal>
    requires { IsBundle bundle.now }
    ensures { Loads bundle.now result }
{
    let rewritten = rewrite_texts(alloc, bundle.images.items())?;
    check_entries(rewritten.items(), bundle.cores.items())?;
    let need = check_frames(bundle, rewritten.items())?;
    Ok(Loaded::new(bundle.copied(alloc)?, rewritten, need))
}

//! Loading a generated bundle, which never fails but for want of memory.

ghost use Rattle.std.specs.Prelude.{IfOk, Ok};
ghost use Rattle.sb_load.specs.Loading.{Loads};
ghost use Rattle.sb_generator.specs.Generator.{generated};

use crate::generator::gen_bundle;
use sb_load::{LoadRefusal, Loaded, load};
use std::alloc::{AllocError, Global};

/// What is loaded of the bundle that is generated from the number.
#[tactic(auto, using(crate::proofs::Loadable::only_memory))]
pub fn load_generated(alloc: Global, number: u64) -> Result<Loaded, AllocError>
    ensures { IfOk result (λ loaded. Loads (generated number) (Ok loaded)) }
{
    let bundle = gen_bundle(alloc, number)?;
    match load(alloc, &bundle) {
        Ok(loaded) => Ok(loaded),
        Err(why) => {
            // The loader accepts each generated bundle.
            prove!(matches!(why, LoadRefusal::Memory));
            Err(AllocError)
        }
    }
}

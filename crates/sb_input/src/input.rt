//! From a source to what was loaded.

ghost use Rattle.std.specs.Prelude.{◌<◌, ◌↔◌, IfOk, IfErr, IsErrAnd, IsErrOf};
ghost use Rattle.sb_port.specs.Port.{Rose, TookFirst};
ghost use Rattle.sb_bundle.specs.declared.refusal.BundleRefusal.{BundleRefusal};
ghost use Rattle.sb_bundle.specs.Limits.{IsBundle};
ghost use Rattle.sb_load.specs.declared.refusal.LoadRefusal.{LoadRefusal};
ghost use Rattle.sb_input.specs.Told.{IsTold, WhereTold, WholeTold};
ghost use Rattle.sb_load.specs.Loading.{IsLoadable};
ghost use Rattle.sb_input.specs.Input.{input_limit, IsTooLong, IsNoBundle, IsNotLoadable, IsAccepted, SomeNoBundle, SomeNotLoadable, SomeAccepted};
ghost use Rattle.sb_input.specs.Cause.{LoadsAs, LeadsTo, IsLengthOrMemory, IsBundleOrMemory, IsLoadOrMemory, IsMemory};

use sb_bundle::{Bundle, BundleRefusal, read_bundle};
use sb_load::{LoadRefusal, Loaded, load};
use sb_port::{ReadAll, Source, read_all};
use std::alloc::Global;
use thiserror::Error;

/// The most bytes of an input: 64 MiB.
pub const INPUT_LIMIT: usize = 67_108_864;

/// Why an input gives nothing to run.
#[derive(Clone, Copy, Debug, PartialEq, Eq, Error)]
pub enum InputRefusal {
    /// The source failed.
    #[error("the source failed")]
    ReadFault,
    /// It is longer than 64 MiB.
    #[error("the input is longer than the limit")]
    TooLong,
    /// Its bytes are no bundle.
    #[error("{0}")]
    Bundle(BundleRefusal),
    /// Its bundle cannot be loaded.
    #[error("{0}")]
    Load(LoadRefusal),
    /// Memory did not suffice.
    #[error("out of memory")]
    Memory,
}

/// Loads a bundle.
fn load_bundle(alloc: Global, bundle: &Bundle) -> Result<Loaded, InputRefusal>
    requires { IsBundle bundle.now }
    ensures { LoadsAs bundle.now result }
{
    match load(alloc, bundle) {
        Ok(loaded) => Ok(loaded),
        Err(LoadRefusal::Memory) => Err(InputRefusal::Memory),
        Err(why) => Err(InputRefusal::Load(why)),
    }
}

/// What is loaded of the bundle that bytes spell.
fn loaded_of(alloc: Global, bytes: &[u8]) -> Result<Loaded, InputRefusal>
    ensures { LeadsTo bytes.now result }
{
    match read_bundle(alloc, bytes) {
        Ok(bundle) => load_bundle(alloc, &bundle),
        Err(BundleRefusal::Memory) => Err(InputRefusal::Memory),
        Err(why) => Err(InputRefusal::Bundle(why)),
    }
}

/// Reads a source to its end, and loads the bundle that its bytes spell.
///
/// # Errors
///
/// `ReadFault` only where the source's count of faults rose, `TooLong` exactly where a byte past the limit was taken, `Bundle`
/// and `Load` exactly where the bytes, which were read to their end, spell no bundle, or one that the loader refuses.
pub fn read_loaded<S: Source>(alloc: Global, source: &mut S) -> Result<Loaded, InputRefusal>
    ensures accepted { IfOk result (λ load. WholeTold (S.left source.old) (S.left source.new) (λ bytes. IsAccepted bytes load.bundle)) }
    ensures loadable { IfOk result (λ load. IsLoadable load) }

    ensures read_fault { IsErrOf result InputRefusal.ReadFault → Rose (S.faults source.old) (S.faults source.new) }

    ensures too_long { IsErrOf result InputRefusal.TooLong → WhereTold (S.left source.old) IsTooLong }
    ensures taken { TookFirst (S.left source.old) (S.left source.new) (λ count.
        IsErrOf result InputRefusal.TooLong ↔ (input_limit < count)) }

    ensures no_bundle { (why : BundleRefusal) → IsErrOf result (InputRefusal.Bundle why)
        → WholeTold (S.left source.old) (S.left source.new) (λ bytes. IsNoBundle bytes why) }
    ensures not_loadable { (why : LoadRefusal) → IsErrOf result (InputRefusal.Load why)
        → WholeTold (S.left source.old) (S.left source.new) (λ bytes. IsNotLoadable bytes why) }

    // Where the source fails nowhere, each input has its answer, unless memory runs out.
    ensures is_too_long { IsTold (S.left source.old) IsTooLong
        → ¬ Rose (S.faults source.old) (S.faults source.new) → IsErrAnd result IsLengthOrMemory }
    ensures is_no_bundle { IsTold (S.left source.old) SomeNoBundle
        → ¬ Rose (S.faults source.old) (S.faults source.new) → IsErrAnd result IsBundleOrMemory }
    ensures is_not_loadable { IsTold (S.left source.old) SomeNotLoadable
        → ¬ Rose (S.faults source.old) (S.faults source.new) → IsErrAnd result IsLoadOrMemory }
    ensures is_accepted { IsTold (S.left source.old) SomeAccepted
        → ¬ Rose (S.faults source.old) (S.faults source.new) → IfErr result IsMemory }
{
    let bytes = match read_all(alloc, source, INPUT_LIMIT) {
        Ok(bytes) => bytes,
        Err(ReadAll::ReadFault) => return Err(InputRefusal::ReadFault),
        Err(ReadAll::TooLong) => return Err(InputRefusal::TooLong),
        Err(ReadAll::Memory) => return Err(InputRefusal::Memory),
    };
    loaded_of(alloc, &bytes)
}

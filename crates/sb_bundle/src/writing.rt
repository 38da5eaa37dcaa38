//! A bundle as bytes.

ghost use Rattle.std.specs.Prelude.{◌≡◌, ◌++◌, IfOk, OnOk, Ok, length, ◌<◌, ◌^◌};
ghost use Rattle.std.specs.List.{flat_map, AllByRecursion};
ghost use Rattle.sb_bundle.specs.Limits.{IsBundle, IsImage};
ghost use Rattle.sb_bundle.specs.Spelling.{number_bytes, spelling, header_bytes, key_bytes, image_bytes, core_bytes};
ghost use Rattle.sb_bundle.specs.Reading.{reading};

use crate::bundle::{Bundle, CoreStart, Image};
use crate::reading::{MAGIC, VERSION};
use std::alloc::{AllocError, Global};

#[tactic(auto, unfolding(crate::specs::Spelling::number_bytes))]
fn put8(out: &mut Vec<u8>, number: u8) -> Result<(), AllocError>
    ensures { OnOk result (out.new.items ≡ out.old.items ++ number_bytes 1 number) }
{
    out.extend_from_slice(&number.to_le_bytes())
}

#[tactic(auto, unfolding(crate::specs::Spelling::number_bytes))]
fn put16(out: &mut Vec<u8>, number: u16) -> Result<(), AllocError>
    ensures { OnOk result (out.new.items ≡ out.old.items ++ number_bytes 2 number) }
{
    out.extend_from_slice(&number.to_le_bytes())
}

#[tactic(auto, unfolding(crate::specs::Spelling::number_bytes))]
fn put32(out: &mut Vec<u8>, number: u32) -> Result<(), AllocError>
    ensures { OnOk result (out.new.items ≡ out.old.items ++ number_bytes 4 number) }
{
    out.extend_from_slice(&number.to_le_bytes())
}

#[tactic(auto, unfolding(crate::specs::Spelling::number_bytes))]
fn put64(out: &mut Vec<u8>, number: u64) -> Result<(), AllocError>
    ensures { OnOk result (out.new.items ≡ out.old.items ++ number_bytes 8 number) }
{
    out.extend_from_slice(&number.to_le_bytes())
}

#[tactic(auto, unfolding(crate::specs::Spelling::header_bytes))]
fn put_header(out: &mut Vec<u8>, bundle: &Bundle) -> Result<(), AllocError>
    requires { IsBundle bundle.now }
    ensures { OnOk result (out.new.items ≡ out.old.items ++ header_bytes bundle.now) }
{
    out.extend_from_slice(&MAGIC)?;
    put16(out, VERSION)?;
    put8(out, bundle.cores.items().len() as u8)?;
    put8(out, bundle.images.items().len() as u8)?;
    put32(out, bundle.frames)?;
    put32(out, bundle.keys.items().len() as u32)?;
    put32(out, bundle.schedule.items().len() as u32)
}

fn put_keys(out: &mut Vec<u8>, keys: &[u64]) -> Result<(), AllocError>
    ensures { OnOk result (out.new.items ≡ out.old.items ++ flat_map key_bytes keys.now) }
{
    for &key in keys {
        put64(out, key)?;
    }
    Ok(())
}

fn put_image(out: &mut Vec<u8>, image: &Image) -> Result<(), AllocError>
    requires { IsImage image.now }
    ensures { OnOk result (out.new.items ≡ out.old.items ++ image_bytes image.now) }
{
    put32(out, image.text.items().len() as u32)?;
    put32(out, image.initial.items().len() as u32)?;
    put32(out, image.heap_pages)?;
    out.extend_from_slice(image.text.items())?;
    out.extend_from_slice(image.initial.items())
}

fn put_images(out: &mut Vec<u8>, images: &[Image]) -> Result<(), AllocError>
    requires { AllByRecursion IsImage images.now }
    ensures { OnOk result (out.new.items ≡ out.old.items ++ flat_map image_bytes images.now) }
{
    for image in images {
        put_image(out, image)?;
    }
    Ok(())
}

fn put_core(out: &mut Vec<u8>, core: CoreStart) -> Result<(), AllocError>
    ensures { OnOk result (out.new.items ≡ out.old.items ++ core_bytes core) }
{
    put32(out, core.process)?;
    put64(out, core.entry)
}

fn put_cores(out: &mut Vec<u8>, cores: &[CoreStart]) -> Result<(), AllocError>
    ensures { OnOk result (out.new.items ≡ out.old.items ++ flat_map core_bytes cores.now) }
{
    for &core in cores {
        put_core(out, core)?;
    }
    Ok(())
}

#[tactic(auto, unfolding(crate::specs::Spelling::spelling))]
fn put_bundle(out: &mut Vec<u8>, bundle: &Bundle) -> Result<(), AllocError>
    requires { IsBundle bundle.now }
    ensures { OnOk result (out.new.items ≡ out.old.items ++ spelling bundle.now) }
{
    put_header(out, bundle)?;
    put_keys(out, bundle.keys.items())?;
    put_images(out, bundle.images.items())?;
    put_cores(out, bundle.cores.items())?;
    out.extend_from_slice(bundle.schedule.items())
}

/// The one spelling of a bundle, which has to be within the limits of each field. It fails only for want of memory.
#[tactic(auto, using(crate::proofs::Whole::reading_again))]
pub fn write_bundle(alloc: Global, bundle: &Bundle) -> Result<Vec<u8>, AllocError>
    requires { IsBundle bundle.now }
    // The bytes are the bundle's spelling.
    ensures spelled { IfOk result (λ bytes. bytes.items ≡ spelling bundle.now) }
    // What was written is read as the same bundle.
    ensures again { IfOk result (λ bytes. reading bytes.items ≡ Ok bundle.now) }
{
    let mut out = Vec::new(alloc);
    put_bundle(&mut out, bundle)?;
    Ok(out)
}

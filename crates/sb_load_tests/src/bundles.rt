//! Bundles for tests, made from the texts of their processes and the starts of their cores.

ghost use Rattle.std.specs.Prelude.{IfOk, IsTrue};
ghost use Rattle.std.specs.List.{AllByRecursion};
ghost use Rattle.sb_bundle.specs.Limits.{IsBundle, IsCoreStart, IsImage};

use sb_bundle::{Bundle, Bytes, CoreStart, CoreStarts, Image, Images, Words};
use std::alloc::Global;
use std::test::Fail;

/// What a process is made from.
#[derive(Clone, Copy)]
pub struct Program<'a> {
    /// Its text.
    pub text: &'a [u8],
    /// Its initial data.
    pub initial: &'a [u8],
    /// How many pages its heap has.
    pub heap_pages: u32,
}

/// MOV EDI, 7; MOV EAX, 1; SYSCALL; XOR EAX, EAX; SYSCALL.
pub const PRINTS_TEXT: [u8; 16] = [
    0xBF, 7, 0, 0, 0, 0xB8, 1, 0, 0, 0, 0x0F, 0x05, 0x31, 0xC0, 0x0F, 0x05,
];

/// A process of this text, without data and heap.
pub const PRINTS: Program = Program {
    text: &PRINTS_TEXT,
    initial: &[],
    heap_pages: 0,
};

/// The image of a process.
fn image_of(alloc: Global, text: &[u8], initial: &[u8], heap_pages: u32) -> Result<Image, Fail>
    ensures { IfOk result (λ image. IsImage image) }
{
    if text.is_empty() || text.len() > 2_097_152 || initial.len() > 2_097_152 || heap_pages > 512 {
        return Err("the program is within the limits of an image".into());
    }
    Ok(Image {
        text: Bytes::new(Vec::from_slice(alloc, text)?),
        initial: Bytes::new(Vec::from_slice(alloc, initial)?),
        heap_pages,
    })
}

/// The images of processes.
fn images_of(alloc: Global, programs: &[Program<'_>]) -> Result<Vec<Image>, Fail>
    ensures { IfOk result (λ images. AllByRecursion IsImage images.items) }
{
    let mut images = Vec::new(alloc);
    for program in programs {
        let image = image_of(alloc, program.text, program.initial, program.heap_pages)?;
        images.push(image)?;
    }
    Ok(images)
}

/// Whether the core starts in one of so many processes.
fn is_core_start(core: CoreStart, processes: usize) -> bool
    ensures { IsTrue result → IsCoreStart processes core }
{
    (core.process as usize) < processes
}

/// Whether each core does.
fn are_core_starts(cores: &[CoreStart], processes: usize) -> bool
    ensures { IsTrue result → AllByRecursion (IsCoreStart processes) cores.now }
{
    for &core in cores {
        if !is_core_start(core, processes) {
            return false;
        }
    }
    true
}

/// A bundle of so many frames, of processes, and of cores by their processes and entries: no keys, no schedule.
pub fn bundle_of(
    alloc: Global,
    frames: u32,
    programs: &[Program<'_>],
    cores: &[CoreStart],
) -> Result<Bundle, Fail>
    ensures { IfOk result (λ bundle. IsBundle bundle) }
{
    let images = images_of(alloc, programs)?;
    let processes = images.len();
    if !(513..=8192).contains(&frames)
        || !(1..=16).contains(&processes)
        || !(1..=8).contains(&cores.len())
        || !are_core_starts(cores, processes)
    {
        return Err("the bundle is within the limits of its fields".into());
    }
    Ok(Bundle {
        frames,
        keys: Words::new(Vec::new(alloc)),
        images: Images::new(images),
        cores: CoreStarts::new(Vec::from_slice(alloc, cores)?),
        schedule: Bytes::new(Vec::new(alloc)),
    })
}

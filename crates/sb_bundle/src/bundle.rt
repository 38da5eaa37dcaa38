//! What a bundle holds.

ghost use Rattle.std.specs.Prelude.{◌≡◌, IfOk};

use sb_list::Listed;
use std::alloc::{AllocError, Global};

/// Key words.
pub type Words = Listed<u64>;
/// Bytes: a text, initial data, or a schedule.
pub type Bytes = Listed<u8>;
/// Images, by the numbers of their processes.
pub type Images = Listed<Image>;
/// Where cores start, by their numbers.
pub type CoreStarts = Listed<CoreStart>;

/// All that a machine is started from.
#[derive(Debug, Drop)]
pub struct Bundle {
    /// How many frames of 4,096 bytes the machine's memory has.
    pub frames: u32,
    /// The words that keys are drawn from, in this order.
    pub keys: Words,
    /// The image of each process.
    pub images: Images,
    /// Where each core starts.
    pub cores: CoreStarts,
    /// For each step, the core that makes it.
    pub schedule: Bytes,
}

/// What a process begins with.
#[derive(Debug, Drop)]
pub struct Image {
    /// The program, as bytes.
    pub text: Bytes,
    /// The initial data.
    pub initial: Bytes,
    /// How many pages of 4,096 bytes the heap has.
    pub heap_pages: u32,
}

/// Where a core starts.
#[derive(Clone, Copy, Debug, PartialEq, Eq)]
pub struct CoreStart {
    /// The process in which the thread of this core is at home.
    pub process: u32,
    /// The address of its first instruction.
    pub entry: u64,
}

impl Image {
    /// The same image in memory of its own.
    pub fn copied(&self, alloc: Global) -> Result<Image, AllocError>
        ensures { IfOk result (λ copy. copy ≡ self.now) }
    {
        Ok(Image {
            text: self.text.copied(alloc)?,
            initial: self.initial.copied(alloc)?,
            heap_pages: self.heap_pages,
        })
    }
}

fn copied_images(alloc: Global, images: &[Image]) -> Result<Images, AllocError>
    ensures { IfOk result (λ copies. copies ≡ images.now) }
{
    let mut copies = Vec::new(alloc);
    for image in images {
        copies.push(image.copied(alloc)?)?;
    }
    Ok(Images::new(copies))
}

impl Bundle {
    /// The same bundle in memory of its own.
    pub fn copied(&self, alloc: Global) -> Result<Bundle, AllocError>
        ensures { IfOk result (λ copy. copy ≡ self.now) }
    {
        Ok(Bundle {
            frames: self.frames,
            keys: self.keys.copied(alloc)?,
            images: copied_images(alloc, self.images.items())?,
            cores: self.cores.copied(alloc)?,
            schedule: self.schedule.copied(alloc)?,
        })
    }
}

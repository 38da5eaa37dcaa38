//! Bytes as a bundle.

ghost use Rattle.std.specs.Prelude.{◌≡◌, IfOk, Ok, OnOk};
ghost use Rattle.sb_bundle.specs.Limits.{IsBundle};
ghost use Rattle.sb_bundle.specs.Spelling.{spelling};
ghost use Rattle.sb_bundle.specs.Fields.{Gives, Answers, number, many};
ghost use Rattle.sb_bundle.specs.Reading.{count, length_field, index, magic_field, version_field, header, image, core_start, bundle, reading};

use crate::bundle::{Bundle, Bytes, CoreStart, CoreStarts, Image, Images, Words};
use crate::cursor::Cursor;
use crate::header::Header;
use crate::limits::{CORES, FRAMES, HEAP, INITIAL, KEYS, Limits, PROCESSES, SCHEDULE, TEXT};
use crate::refusal::BundleRefusal;
use sb_list::Listed;
use std::alloc::Global;

/// "SKYB".
pub(crate) const MAGIC: [u8; 4] = [0x53, 0x4B, 0x59, 0x42];

/// The version of the format.
pub(crate) const VERSION: u16 = 1;

#[tactic(auto, unfolding(crate::specs::Reading::magic_field))]
fn read_magic(cursor: &mut Cursor<'_>) -> Result<u32, BundleRefusal>
    ensures { Gives result cursor.new (magic_field cursor.old) }
{
    let at = cursor.offset();
    let magic = cursor.number32()?;
    if magic != u32::from_le_bytes(MAGIC) {
        return Err(BundleRefusal::Magic { at });
    }
    Ok(magic)
}

#[tactic(auto, unfolding(crate::specs::Reading::version_field))]
fn read_version(cursor: &mut Cursor<'_>) -> Result<u16, BundleRefusal>
    ensures { Gives result cursor.new (version_field cursor.old) }
{
    let at = cursor.offset();
    let version = cursor.number16()?;
    if version != VERSION {
        return Err(BundleRefusal::Version { at });
    }
    Ok(version)
}

#[tactic(auto, unfolding(crate::specs::Reading::count))]
fn read_small_count(cursor: &mut Cursor<'_>, limits: &Limits) -> Result<u8, BundleRefusal>
    ensures { Gives result cursor.new (count limits.now 1 cursor.old) }
{
    let at = cursor.offset();
    let count = cursor.number8()?;
    if !limits.allow(u32::from(count)) {
        return Err(BundleRefusal::Count { at });
    }
    Ok(count)
}

#[tactic(auto, unfolding(crate::specs::Reading::count))]
fn read_count(cursor: &mut Cursor<'_>, limits: &Limits) -> Result<u32, BundleRefusal>
    ensures { Gives result cursor.new (count limits.now 4 cursor.old) }
{
    let at = cursor.offset();
    let count = cursor.number32()?;
    if !limits.allow(count) {
        return Err(BundleRefusal::Count { at });
    }
    Ok(count)
}

#[tactic(auto, unfolding(crate::specs::Reading::length_field))]
fn read_length(cursor: &mut Cursor<'_>, limits: &Limits) -> Result<u32, BundleRefusal>
    ensures { Gives result cursor.new (length_field limits.now cursor.old) }
{
    let at = cursor.offset();
    let length = cursor.number32()?;
    if !limits.allow(length) {
        return Err(BundleRefusal::Range { at });
    }
    Ok(length)
}

#[tactic(auto, unfolding(crate::specs::Reading::index))]
fn read_process(cursor: &mut Cursor<'_>, processes: u8) -> Result<u32, BundleRefusal>
    ensures { Gives result cursor.new (index processes 4 cursor.old) }
{
    let at = cursor.offset();
    let process = cursor.number32()?;
    if process >= u32::from(processes) {
        return Err(BundleRefusal::Range { at });
    }
    Ok(process)
}

#[tactic(auto, unfolding(crate::specs::Reading::index))]
fn read_core(cursor: &mut Cursor<'_>, cores: u8) -> Result<u8, BundleRefusal>
    ensures { Gives result cursor.new (index cores 1 cursor.old) }
{
    let at = cursor.offset();
    let core = cursor.number8()?;
    if core >= cores {
        return Err(BundleRefusal::Range { at });
    }
    Ok(core)
}

#[tactic(auto, unfolding(crate::specs::Reading::header))]
fn read_header(cursor: &mut Cursor<'_>) -> Result<Header, BundleRefusal>
    ensures { Gives result cursor.new (header cursor.old) }
{
    read_magic(cursor)?;
    read_version(cursor)?;
    let cores = read_small_count(cursor, &CORES)?;
    let processes = read_small_count(cursor, &PROCESSES)?;
    let frames = read_count(cursor, &FRAMES)?;
    let keys = read_count(cursor, &KEYS)?;
    let schedule = read_count(cursor, &SCHEDULE)?;
    Ok(Header {
        cores,
        processes,
        frames,
        keys,
        schedule,
    })
}

#[tactic(auto, unfolding(crate::specs::Reading::image))]
fn read_image(alloc: Global, cursor: &mut Cursor<'_>) -> Result<Image, BundleRefusal>
    ensures { Gives result cursor.new (image cursor.old) }
{
    let text_length = read_length(cursor, &TEXT)?;
    let initial_length = read_length(cursor, &INITIAL)?;
    let heap_pages = read_length(cursor, &HEAP)?;
    let text = cursor.bytes(text_length as usize)?;
    let initial = cursor.bytes(initial_length as usize)?;
    Ok(Image {
        text: Bytes::new(Vec::from_slice(alloc, text)?),
        initial: Bytes::new(Vec::from_slice(alloc, initial)?),
        heap_pages,
    })
}

#[tactic(auto, unfolding(crate::specs::Reading::core_start))]
fn read_core_start(cursor: &mut Cursor<'_>, processes: u8) -> Result<CoreStart, BundleRefusal>
    ensures { Gives result cursor.new (core_start processes cursor.old) }
{
    let process = read_process(cursor, processes)?;
    let entry = cursor.number64()?;
    Ok(CoreStart { process, entry })
}

/// What a bundle has a list of.
trait Part: Sized {
    ghost use Rattle.sb_bundle.specs.declared.header.Header.{Header};
    ghost use Rattle.sb_bundle.specs.Fields.{Field};

    ghost field: { Header → Field Self };

    /// The next one of the list.
    fn read(alloc: Global, cursor: &mut Cursor<'_>, header: &Header) -> Result<Self, BundleRefusal>
        ensures { Gives result cursor.new (field header.now cursor.old) };
}

/// A key word.
impl Part for u64 {
    ghost field = { λ header. number 8 };

    fn read(_: Global, cursor: &mut Cursor<'_>, _: &Header) -> Result<u64, BundleRefusal> {
        cursor.number64()
    }
}

impl Part for Image {
    ghost field = { λ header. image };

    fn read(alloc: Global, cursor: &mut Cursor<'_>, _: &Header) -> Result<Image, BundleRefusal> {
        read_image(alloc, cursor)
    }
}

impl Part for CoreStart {
    ghost field = { λ header. core_start header.processes };

    fn read(
        _: Global,
        cursor: &mut Cursor<'_>,
        header: &Header,
    ) -> Result<CoreStart, BundleRefusal> {
        read_core_start(cursor, header.processes)
    }
}

/// An entry of the schedule.
impl Part for u8 {
    ghost field = { λ header. index header.cores 1 };

    fn read(_: Global, cursor: &mut Cursor<'_>, header: &Header) -> Result<u8, BundleRefusal> {
        read_core(cursor, header.cores)
    }
}

fn read_list<P: Part + Drop>(
    alloc: Global,
    cursor: &mut Cursor<'_>,
    header: &Header,
    count: u32,
) -> Result<Listed<P>, BundleRefusal>
    ensures { Gives result cursor.new (many count (P.field header.now) cursor.old) }
{
    let mut parts = Vec::new(alloc);
    for _ in 0..count {
        parts.push(P::read(alloc, cursor, header)?)?;
    }
    Ok(Listed::new(parts))
}

#[tactic(auto, unfolding(crate::specs::Reading::bundle))]
fn read_fields(alloc: Global, cursor: &mut Cursor<'_>) -> Result<Bundle, BundleRefusal>
    ensures { Gives result cursor.new (bundle cursor.old) }
{
    let header = read_header(cursor)?;
    let keys: Words = read_list(alloc, cursor, &header, header.keys)?;
    let images: Images = read_list(alloc, cursor, &header, u32::from(header.processes))?;
    let cores: CoreStarts = read_list(alloc, cursor, &header, u32::from(header.cores))?;
    let schedule: Bytes = read_list(alloc, cursor, &header, header.schedule)?;
    Ok(Bundle {
        frames: header.frames,
        keys,
        images,
        cores,
        schedule,
    })
}

#[tactic(auto, unfolding(crate::specs::Reading::reading))]
fn read_whole(alloc: Global, bytes: &[u8]) -> Result<Bundle, BundleRefusal>
    ensures { Answers result (reading bytes.now) }
{
    let mut cursor = Cursor::new(bytes);
    let bundle = read_fields(alloc, &mut cursor)?;
    if !cursor.is_at_end() {
        return Err(BundleRefusal::Trailing {
            at: cursor.offset(),
        });
    }
    Ok(bundle)
}

/// The bundle that the bytes spell, all of the bytes.
///
/// # Errors
///
/// The first refusal in the order of fields: each field is judged as soon as it is whole, before any byte behind it is
/// looked at. `Memory` may come in place of any answer.
pub fn read_bundle(alloc: Global, bytes: &[u8]) -> Result<Bundle, BundleRefusal>
    // What is read is a bundle, and the bytes are its spelling.
    ensures found { IfOk result (λ b. IsBundle b × (bytes.now ≡ spelling b)) }
    // What spells a bundle is read as it, unless memory runs out.
    ensures only { (b : Bundle) → IsBundle b → bytes.now ≡ spelling b → Answers result (Ok b) }
    // Each answer is that of reading field after field: which refusal, and where.
    ensures exact { Answers result (reading bytes.now) }
{
    read_whole(alloc, bytes)
}

/// A law, which does nothing when it is called: no two bundles have one spelling.
#[tactic(auto, using(crate::proofs::Whole::same_spelling))]
pub fn one_spelling()
    ensures { (a b : Bundle) → IsBundle a → IsBundle b → spelling a ≡ spelling b → a ≡ b }
{}

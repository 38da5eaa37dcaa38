//! The pages of a heap, found by the tables of its process.

ghost use Rattle.std.specs.Prelude.{◌≡◌, ◌<◌, ◌≤◌, ◌+◌, ◌*◌, ◌/◌, ◌^◌, ◌++◌, IfOk, IfSome, Option, length, drop, take};
ghost use Rattle.sb_abi.specs.declared.frames.TheConstants.{KEPT_FRAMES};
ghost use Rattle.sb_memory.specs.Physical.{frame_count};
ghost use Rattle.sb_memory.specs.declared.address.Frame.{Frame};
ghost use Rattle.sb_memory.specs.declared.address.Access.TheVariants.{Read};
ghost use Rattle.sb_memory.specs.declared.page.TheConstants.{PAGE_SIZE};
ghost use Rattle.sb_pagewalk.specs.TableSet.{walked_in};
ghost use Rattle.sb_mapping.specs.StartPages.{heap_at};
ghost use Rattle.sb_sub.specs.Heap.{FindsHeap, frame_before, frame_behind, frame_bytes, heap_frame, pattern_at, pattern_by};

use sb_mapping::heap_address;
use sb_memory::{Access, Frame, Linear, Memory};
use sb_pagewalk::{Direct, TableSet, walk};
use sb_scan::first_place;
use sb_state::last_two;

/// The bytes of a page.
const PAGE_SIZE: usize = sb_memory::PAGE_SIZE as usize;

/// The frame of a heap page, where it may be accessed so.
pub fn heap_frame(memory: &mut Memory, set: &TableSet, page: u32, access: Access) -> Option<Frame>
    requires small { frame_count memory.old < 2 ^ 32 }
    requires inside { IfOk (walked_in memory.old set.now (heap_at page) access) (λ at. at.0 / 4096 < frame_count memory.old) }
    ensures same { memory.new ≡ memory.old }
    ensures frame { result ≡ heap_frame memory.old set.now page access }
{
    let root = PAGE_SIZE as u64 * u64::from(set.root.0);
    match walk(&mut Direct::new(memory), root, heap_address(page), access) {
        Ok(at) => Some(Frame((at.0 / PAGE_SIZE as u64) as u32)),
        Err(_) => None,
    }
}

/// The bytes of a frame; none of no frame.
fn frame_bytes(memory: &Memory, frame: Option<Frame>) -> &[u8]
    requires { IfSome frame (λ frame. PAGE_SIZE * frame.0 + PAGE_SIZE ≤ length memory.now.bytes) }
    ensures bytes { result.now ≡ frame_bytes memory.now frame }
    ensures size { length result.now ≤ PAGE_SIZE }
    ensures full { IfSome frame (λ _. 2 ≤ length result.now) }
{
    match frame {
        Some(frame) => {
            let start = PAGE_SIZE * frame.0 as usize;
            &memory.bytes()[start..start + PAGE_SIZE]
        }
        None => &[],
    }
}

/// The first two bytes of a page; none of no bytes.
fn first_two(bytes: &[u8]) -> &[u8]
    ensures bytes { result.now ≡ take 2 bytes.now }
    ensures size { length result.now ≤ 2 }
{
    &bytes[..2.min(bytes.len())]
}

/// The frame of the page before, where there is one and it is executable.
fn frame_before(memory: &mut Memory, set: &TableSet, page: u32, count: u32) -> Option<Frame>
    requires finds { FindsHeap memory.old set.now count }
    requires page { page < count }
    ensures same { memory.new ≡ memory.old }
    ensures frame { result ≡ frame_before memory.old set.now page }
    ensures inside { IfSome result (λ frame. frame.0 < frame_count memory.old) }
{
    if page == 0 {
        return None;
    }
    heap_frame(memory, set, page - 1, Access::Fetch)
}

/// The frame of the page behind, where there is one and it is executable.
fn frame_behind(memory: &mut Memory, set: &TableSet, page: u32, count: u32) -> Option<Frame>
    requires finds { FindsHeap memory.old set.now count }
    requires page { page < count }
    ensures same { memory.new ≡ memory.old }
    ensures frame { result ≡ frame_behind memory.old set.now page count }
    ensures inside { IfSome result (λ frame. frame.0 < frame_count memory.old) }
{
    let next = page + 1;
    if next < count {
        heap_frame(memory, set, next, Access::Fetch)
    } else {
        None
    }
}

/// The frame of a heap page.
pub fn page_frame(memory: &mut Memory, set: &TableSet, page: u32, count: u32) -> Frame
    requires finds { FindsHeap memory.old set.now count }
    requires page { page < count }
    ensures same { memory.new ≡ memory.old }
    ensures frame { heap_frame memory.old set.now page Read ≡ Some result }
    ensures inside { result.0 < frame_count memory.old }
    ensures above { KEPT_FRAMES ≤ result.0 }
{
    match heap_frame(memory, set, page, Access::Read) {
        Some(frame) => frame,
        None => unreachable!(),
    }
}

/// The lowest address at which the pattern stands in a heap page or across its border with an executable one.
pub fn heap_pattern(memory: &mut Memory, set: &TableSet, page: u32, count: u32) -> Option<u64>
    requires finds { FindsHeap memory.old set.now count }
    requires page { page < count }
    ensures same { memory.new ≡ memory.old }
    ensures pattern { result ≡ pattern_at memory.old set.now page count }
{
    let before = frame_before(memory, set, page, count);
    let found = page_frame(memory, set, page, count);
    let behind = frame_behind(memory, set, page, count);
    pattern_among(memory, page, before, found, behind)
}

/// The lowest address of the pattern in the page in a frame, or across its borders with the pages in others.
#[tactic(auto, using(sb_state::proofs::Pattern::first_place))]
fn pattern_among(
    memory: &Memory,
    page: u32,
    before: Option<Frame>,
    found: Frame,
    behind: Option<Frame>,
) -> Option<u64>
    requires size { length memory.now.bytes ≡ PAGE_SIZE * frame_count memory.now }
    requires before { IfSome before (λ frame. frame.0 < frame_count memory.now) }
    requires found { found.0 < frame_count memory.now }
    requires behind { IfSome behind (λ frame. frame.0 < frame_count memory.now) }
    ensures { result ≡ pattern_by memory.now page before found behind }
{
    let prefix = last_two(frame_bytes(memory, before));
    let bytes = frame_bytes(memory, Some(found));
    let end = first_two(frame_bytes(memory, behind));
    let place = first_place(prefix, bytes, end)?;
    Some(heap_address(page).0 + (place as u64) - (prefix.len() as u64))
}

//! Where the bytes of VMFUNC, `0F 01 D4`, stand among others.
//!
//! Guest text must hold these three bytes nowhere, whether an instruction begins at them or not, since a jump may lead
//! into the middle of one. `find_pattern` gives the first place, `patterns` all of them in order, and `spans` says
//! whether they stand across the border of two slices, as of two pages; `first_place` looks in a page and across both
//! its borders. Each answer is exact, None too. Not inside: which instructions hold the pattern, and what stands in
//! their place.
//!
//! ```text
//! find_pattern(&[0xB8, 0x0F, 0x01, 0xD4, 0x00])      // Some(1)
//! spans(&[0xB8, 0x0F], &[0x01, 0xD4, 0x00])          // Some(1): one byte stands before the border
//! ```
#![tactic(auto)]

ghost use Rattle.std.specs.Prelude.{IfOk, IfSome, ◌≡◌, ◌+◌, ◌<◌, ◌≤◌, ◌++◌, length};
ghost use Rattle.memchr.specs.Find.{matches};
ghost use Rattle.sb_scan.specs.Pattern.{IsFirstPattern, ArePatterns, IsSpan, pattern};

use memchr::memmem;
use std::alloc::{AllocError, Global};

/// VMFUNC (SDM volume 3).
pub const PATTERN: [u8; 3] = [0x0F, 0x01, 0xD4];

/// The first place at which the pattern stands.
#[tactic(auto, using(crate::proofs::Places::first_pattern))]
pub fn find_pattern(bytes: &[u8]) -> Option<usize>
    ensures { IsFirstPattern bytes.now result }
{
    memmem::find(bytes, &PATTERN)
}

/// All places at which the pattern stands, in order. It fails only for want of memory.
///
/// The search goes on behind each place that it found, and misses none, since the pattern cannot overlap itself.
pub fn patterns(alloc: Global, bytes: &[u8]) -> Result<Vec<usize>, AllocError>
    ensures { IfOk result (λ places. ArePatterns bytes.now places.items) }
{
    all_matches(alloc, bytes)
}

/// What the search finds that goes on behind each match.
fn all_matches(alloc: Global, bytes: &[u8]) -> Result<Vec<usize>, AllocError>
    ensures { IfOk result (λ places. places.items ≡ matches bytes.now pattern 0) }
{
    memmem::find_iter(bytes, &PATTERN).collect(alloc)
}

/// How many bytes of the pattern, 1 or 2, stand at the end of `left`, where the others begin `right`.
pub fn spans(left: &[u8], right: &[u8]) -> Option<usize>
    ensures { IsSpan left.now right.now result }
{
    match (left, right) {
        ([.., 0x0F], [0x01, 0xD4, ..]) => Some(1),
        ([.., 0x0F, 0x01], [0xD4, ..]) => Some(2),
        _ => None,
    }
}

/// The first place at which the pattern stands in bytes that have others before and after them, as a page has the last
/// two of the page before it and the first two of the page after it. It is counted from the first of all.
pub fn first_place(before: &[u8], bytes: &[u8], behind: &[u8]) -> Option<usize>
    requires before { length before.now ≤ 2 }
    requires bytes { 2 ≤ length bytes.now }
    requires behind { length behind.now ≤ 2 }
    ensures place { IsFirstPattern (before.now ++ (bytes.now ++ behind.now)) result }
    ensures within { IfSome result (λ place. place < length before.now + length bytes.now) }
{
    if let Some(count) = spans(before, bytes) {
        return Some(before.len() - count);
    }
    if let Some(place) = find_pattern(bytes) {
        return Some(before.len() + place);
    }
    let count = spans(bytes, behind)?;
    Some(before.len() + bytes.len() - count)
}

//! Bytes against what reading answers, and the bytes that are written.

ghost use Rattle.std.specs.Prelude.{IfOk};
ghost use Rattle.sb_bundle.specs.Limits.{IsBundle};

use crate::bundles::{PRINTS, bundle_of};
use crate::same::assert_same;
use sb_bundle::BundleRefusal::{self, Count, Magic, Range, Short, Trailing, Version};
use sb_bundle::{Bundle, CoreStart, read_bundle, write_bundle};
use std::alloc::{AllocError, Global};
use std::test::Fail;

/// One core, in one process of five instructions, and five steps.
const FIRST: [u8; 65] = [
    0x53, 0x4B, 0x59, 0x42, 0x01, 0x00, 0x01, 0x01, 0x40, 0x02, 0x00, 0x00, 0x00, 0x00, 0x00, 0x00,
    0x05, 0x00, 0x00, 0x00, 0x10, 0x00, 0x00, 0x00, 0x00, 0x00, 0x00, 0x00, 0x00, 0x00, 0x00, 0x00,
    0xBF, 0x07, 0x00, 0x00, 0x00, 0xB8, 0x01, 0x00, 0x00, 0x00, 0x0F, 0x05, 0x31, 0xC0, 0x0F, 0x05,
    0x00, 0x00, 0x00, 0x00, 0x00, 0x00, 0x40, 0x00, 0x00, 0x00, 0x00, 0x00, 0x00, 0x00, 0x00, 0x00,
    0x00,
];

/// The first `length` bytes of the first bundle, with other bytes from `at` on.
fn edited(alloc: Global, at: usize, other: &[u8], length: usize) -> Result<Vec<u8>, AllocError> {
    let mut bytes = Vec::new(alloc);
    for (place, &byte) in FIRST.iter().enumerate() {
        if place < length {
            let changed = place >= at && place - at < other.len();
            bytes.push(if changed { other[place - at] } else { byte })?;
        }
    }
    Ok(bytes)
}

/// Where the field begins in which the first bundle ends that is cut to `length` bytes.
fn cut_field(length: usize) -> usize {
    match length {
        0..=3 => 0,
        4 | 5 => 4,
        6 => 6,
        7 => 7,
        8..=31 => length / 4 * 4,
        32..=47 => 32,
        48..=51 => 48,
        52..=59 => 52,
        _ => length,
    }
}

/// Why the bytes are refused, if they are.
fn refusal_of(alloc: Global, bytes: &[u8]) -> Option<BundleRefusal> {
    read_bundle(alloc, bytes).err()
}

#[test]
fn a_bundle_that_ends_early_is_short_at_its_last_field(rt: HostRuntime) -> Result<(), Fail> {
    for length in 0..65 {
        let bytes = edited(rt.alloc(), 0, &[], length)?;
        let at = cut_field(length) as u64;
        assert_same(
            &rt,
            "cut",
            &refusal_of(rt.alloc(), &bytes),
            &Some(Short { at }),
        );
    }
    Ok(())
}

/// What is edited, from where on, into which bytes, and what is then refused.
type Edit = (&'static str, usize, &'static [u8], Option<BundleRefusal>);

#[rattlefmt::skip]
const EDITS: [Edit; 33] = [
    ("as it is", 0, &[], None),
    ("the magic's last byte", 3, &[0x43], Some(Magic { at: 0 })),
    ("version 2", 4, &[2], Some(Version { at: 4 })),
    ("version 257", 5, &[1], Some(Version { at: 4 })),
    ("no core", 6, &[0], Some(Count { at: 6 })),
    ("8 cores, one there", 6, &[8], Some(Short { at: 64 })),
    ("9 cores", 6, &[9], Some(Count { at: 6 })),
    ("no process", 7, &[0], Some(Count { at: 7 })),
    ("16 processes, one there", 7, &[16], Some(Range { at: 48 })),
    ("17 processes", 7, &[17], Some(Count { at: 7 })),
    ("512 frames", 8, &[0x00, 0x02], Some(Count { at: 8 })),
    ("513 frames", 8, &[0x01, 0x02], None),
    ("8192 frames", 8, &[0x00, 0x20], None),
    ("8193 frames", 8, &[0x01, 0x20], Some(Count { at: 8 })),
    ("128 keys, five there", 12, &[128], Some(Short { at: 60 })),
    ("129 keys", 12, &[129], Some(Count { at: 12 })),
    ("no schedule", 16, &[0], Some(Trailing { at: 60 })),
    ("one entry less", 16, &[4], Some(Trailing { at: 64 })),
    ("2^20 entries", 16, &[0, 0, 16], Some(Short { at: 65 })),
    ("2^20 + 1 entries", 16, &[1, 0, 16], Some(Count { at: 16 })),
    ("no text", 20, &[0], Some(Range { at: 20 })),
    ("1 byte of text, process 7", 20, &[1], Some(Range { at: 33 })),
    ("2 MiB of text", 20, &[0, 0, 32], Some(Short { at: 32 })),
    ("2 MiB + 1 of text", 20, &[1, 0, 32], Some(Range { at: 20 })),
    ("2 MiB of data", 24, &[0, 0, 32], Some(Short { at: 48 })),
    ("2 MiB + 1 of data", 24, &[1, 0, 32], Some(Range { at: 24 })),
    ("512 heap pages", 28, &[0, 2], None),
    ("513 heap pages", 28, &[1, 2], Some(Range { at: 28 })),
    ("process 1 of 1", 48, &[1], Some(Range { at: 48 })),
    ("process 2^24", 51, &[1], Some(Range { at: 48 })),
    ("any entry address", 52, &[0xFF; 8], None),
    ("core 1 of 1", 60, &[1], Some(Range { at: 60 })),
    ("two wrong cores", 62, &[1, 9], Some(Range { at: 62 })),
];

#[test]
fn each_limit_at_its_edge_and_past_it(rt: HostRuntime) -> Result<(), Fail> {
    for (name, at, other, refusal) in &EDITS {
        let bytes = edited(rt.alloc(), *at, other, 65)?;
        assert_same(&rt, name, &refusal_of(rt.alloc(), &bytes), refusal);
    }
    Ok(())
}

/// What is edited, from where on, where the input is cut, and what is then refused.
type Cut = (&'static str, usize, usize, BundleRefusal);

#[rattlefmt::skip]
const CUTS: [Cut; 5] = [
    ("three wrong bytes of the magic", 0, 3, Short { at: 0 }),
    ("four wrong bytes of the magic", 0, 4, Magic { at: 0 }),
    ("a length before its bytes", 31, 32, Range { at: 28 }),
    ("a wrong core, then the end", 61, 62, Range { at: 61 }),
    ("the end, then a wrong core", 62, 62, Short { at: 62 }),
];

#[test]
fn the_first_refusal_in_the_order_of_fields(rt: HostRuntime) -> Result<(), Fail> {
    for &(name, at, length, refusal) in &CUTS {
        let bytes = edited(rt.alloc(), at, &[1, 1, 1, 1], length)?;
        assert_same(&rt, name, &refusal_of(rt.alloc(), &bytes), &Some(refusal));
    }
    Ok(())
}

#[test]
fn a_byte_behind_the_schedule_is_trailing(rt: HostRuntime) -> Result<(), Fail> {
    let mut bytes = Vec::from_slice(rt.alloc(), &FIRST)?;
    bytes.push(0)?;
    assert_same(
        &rt,
        "one byte more",
        &refusal_of(rt.alloc(), &bytes),
        &Some(Trailing { at: 65 }),
    );
    Ok(())
}

/// The core of the first bundle.
const FIRST_CORE: CoreStart = CoreStart {
    process: 0,
    entry: 0x40_0000,
};

/// The first bundle, read.
fn first_bundle(alloc: Global) -> Result<Bundle, Fail>
    ensures { IfOk result (λ bundle. IsBundle bundle) }
{
    match read_bundle(alloc, &FIRST) {
        Ok(bundle) => Ok(bundle),
        Err(_) => Err("the bytes are a bundle".into()),
    }
}

/// Writes a bundle, without the contract of `write_bundle`, which tests do not need.
fn written(alloc: Global, bundle: &Bundle) -> Result<Vec<u8>, AllocError>
    requires { IsBundle bundle.now }
{
    write_bundle(alloc, bundle)
}

#[test]
fn what_is_read_is_written(rt: HostRuntime) -> Result<(), Fail> {
    let bundle = first_bundle(rt.alloc())?;
    assert_same(&rt, "frames", &bundle.frames, &576);
    assert_same(
        &rt,
        "cores",
        &bundle.cores.items(),
        &[FIRST_CORE].as_slice(),
    );
    let bytes = written(rt.alloc(), &bundle)?;
    assert_same(&rt, "bytes", &bytes.as_slice(), &FIRST.as_slice());
    Ok(())
}

#[test]
fn a_copy_has_what_was_read(rt: HostRuntime) -> Result<(), Fail> {
    let copy = first_bundle(rt.alloc())?.copied(rt.alloc())?;
    assert_same(&rt, "frames", &copy.frames, &576);
    assert_same(&rt, "images", &copy.images.items().len(), &1);
    assert_same(&rt, "cores", &copy.cores.items(), &[FIRST_CORE].as_slice());
    assert_same(&rt, "schedule", &copy.schedule.items(), &[0; 5].as_slice());
    Ok(())
}

#[test]
fn what_is_built_is_written(rt: HostRuntime) -> Result<(), Fail> {
    let bundle = bundle_of(rt.alloc(), 576, &[PRINTS], &[FIRST_CORE])?;
    // The first bundle without its schedule.
    let expected = edited(rt.alloc(), 16, &[0], 60)?;
    let bytes = written(rt.alloc(), &bundle)?;
    assert_same(&rt, "bytes", &bytes.as_slice(), &expected.as_slice());
    Ok(())
}

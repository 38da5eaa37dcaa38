//! Bundles of servers and clients. Core `c` starts at the first byte of process `c`'s text.

use std::alloc::Global;
use std::test::Fail;

/// Registers its handler at 400017 with two stacks, and exits. The handler adds 1 to the word at 800000.
#[rattlefmt::skip]
pub const ADDS: [u8; 39] = [
    0xBF, 0x17, 0, 0x40, 0, 0xBE, 2, 0, 0, 0, 0xB8, 2, 0, 0, 0, 0x0F, 5, 0x31, 0xFF, 0x31, 0xC0, 0x0F, 5,
    0xBA, 1, 0, 0, 0, 0xF0, 0x48, 0x0F, 0xC1, 0x14, 0x25, 0, 0, 0x80, 0, 0xC3,
];

/// The same, but the handler adds D4010F, in a MOV that holds VMFUNC's bytes.
#[rattlefmt::skip]
pub const ADDS_MOVED: [u8; 39] = [
    0xBF, 0x17, 0, 0x40, 0, 0xBE, 2, 0, 0, 0, 0xB8, 2, 0, 0, 0, 0x0F, 5, 0x31, 0xFF, 0x31, 0xC0, 0x0F, 5,
    0xBA, 0x0F, 1, 0xD4, 0, 0xF0, 0x48, 0x0F, 0xC1, 0x14, 0x25, 0, 0, 0x80, 0, 0xC3,
];

/// The same with one stack.
#[rattlefmt::skip]
pub const ADDS_ON_ONE: [u8; 39] = [
    0xBF, 0x17, 0, 0x40, 0, 0xBE, 1, 0, 0, 0, 0xB8, 2, 0, 0, 0, 0x0F, 5, 0x31, 0xFF, 0x31, 0xC0, 0x0F, 5,
    0xBA, 1, 0, 0, 0, 0xF0, 0x48, 0x0F, 0xC1, 0x14, 0x25, 0, 0, 0x80, 0, 0xC3,
];

/// The same start; the handler jumps to 70000043, behind VMFUNC in its view.
#[rattlefmt::skip]
pub const LANDS: [u8; 28] = [
    0xBF, 0x17, 0, 0x40, 0, 0xBE, 2, 0, 0, 0, 0xB8, 2, 0, 0, 0, 0x0F, 5, 0x31, 0xFF, 0x31, 0xC0, 0x0F, 5,
    0xE9, 0x27, 0, 0xC0, 0x6F,
];

/// The same start; the handler jumps to VMFUNC, whose address is in RDX, with index 2 and key 0.
#[rattlefmt::skip]
pub const FORWARDS: [u8; 34] = [
    0xBF, 0x17, 0, 0x40, 0, 0xBE, 2, 0, 0, 0, 0xB8, 2, 0, 0, 0, 0x0F, 5, 0x31, 0xFF, 0x31, 0xC0, 0x0F, 5,
    0xB9, 2, 0, 0, 0, 0x31, 0xF6, 0x31, 0xC0, 0xFF, 0xE2,
];

/// The same start; the handler reads its own text, which may only be fetched.
#[rattlefmt::skip]
pub const FAULTS: [u8; 30] = [
    0xBF, 0x17, 0, 0x40, 0, 0xBE, 2, 0, 0, 0, 0xB8, 2, 0, 0, 0, 0x0F, 5, 0x31, 0xFF, 0x31, 0xC0, 0x0F, 5,
    0x8B, 4, 0x25, 0, 0, 0x40, 0,
];

/// Binds to process 0, asking until it is answered 0, and calls it three times; prints each reply, and exits.
#[rattlefmt::skip]
pub const CALLS: [u8; 60] = [
    0xBF, 0, 0, 0, 0, 0xB8, 3, 0, 0, 0, 0x0F, 5, 0x85, 0xC0, 0x75, 0xF0, 0x49, 0x89, 0xD4, 0x4D, 0x89, 0xC5,
    0x41, 0xBE, 3, 0, 0, 0, 0x4C, 0x89, 0xE7, 0x4C, 0x89, 0xEE, 0xE8, 0xD9, 0xFF, 0xBF, 0x6F, 0x48, 0x89, 0xD7,
    0xB8, 1, 0, 0, 0, 0x0F, 5, 0x41, 0xFF, 0xCE, 0x75, 0xE6, 0x31, 0xFF, 0x31, 0xC0, 0x0F, 5,
];

/// Binds to process 0, and jumps to VMFUNC with index 1, key 0 and no stack.
#[rattlefmt::skip]
pub const GUESSES: [u8; 28] = [
    0xBF, 0, 0, 0, 0, 0xB8, 3, 0, 0, 0, 0x0F, 5, 0x31, 0xF6, 0x31, 0xE4, 0xB9, 1, 0, 0, 0, 0x31, 0xC0,
    0xE9, 0x24, 0, 0xC0, 0x6F,
];

/// Jumps to VMFUNC with index 1, which has no view.
pub const UNBOUND: [u8; 12] = [0xB9, 1, 0, 0, 0, 0x31, 0xC0, 0xE9, 0x34, 0, 0xC0, 0x6F];

/// Binds to process 0 twice, and jumps to VMFUNC with index 1, the first key, and VMFUNC's address in RDX.
#[rattlefmt::skip]
pub const BINDS_TWICE: [u8; 55] = [
    0xBF, 0, 0, 0, 0, 0xB8, 3, 0, 0, 0, 0x0F, 5, 0x4C, 0x89, 0xC6, 0xBC, 0, 0x80, 0, 3, 0x49, 0x89, 0xF4,
    0xBF, 0, 0, 0, 0, 0xB8, 3, 0, 0, 0, 0x0F, 5, 0x4C, 0x89, 0xE6, 0xBA, 0x40, 0, 0, 0x70, 0xB9, 1, 0, 0, 0,
    0x31, 0xC0, 0xE9, 9, 0, 0xC0, 0x6F,
];

/// A bundle of these processes, each with 8 bytes of data and a core, with 1024 frames, two key words and no schedule.
pub fn bundle_of(alloc: Global, texts: &[&[u8]]) -> Result<Vec<u8>, Fail> {
    let count = u8::try_from(texts.len())?;
    let mut bytes = Vec::new(alloc);
    bytes.extend_from_slice(b"SKYB\x01\x00")?;
    bytes.extend_from_slice(&[count, count, 0, 4, 0, 0, 2, 0, 0, 0, 0, 0, 0, 0])?;
    bytes.extend_from_slice(b"\x05\0\0\0\0\0\0\0\x09\0\0\0\0\0\0\0")?;
    for text in texts {
        bytes.extend_from_slice(&u32::try_from(text.len())?.to_le_bytes())?;
        bytes.extend_from_slice(&[8, 0, 0, 0, 0, 0, 0, 0])?;
        bytes.extend_from_slice(text)?;
        bytes.extend_from_slice(&[0; 8])?;
    }
    for core in 0..count {
        bytes.extend_from_slice(&[core, 0, 0, 0, 0, 0, 0x40, 0, 0, 0, 0, 0])?;
    }
    Ok(bytes)
}

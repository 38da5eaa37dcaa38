//! Two threads of one process that read and store at one address.

use sb_bundle::read_bundle;
use sb_load::{Loaded, load};
use std::alloc::Global;
use std::test::Fail;

/// 700 frames and one process, with a word at 800000 that is 0. Behind it the cores are still to come.
#[rattlefmt::skip]
const PROCESS: [u8; 95] = [
    0x53, 0x4B, 0x59, 0x42, 1, 0, 2, 1, 0xBC, 0x02, 0, 0, 0, 0, 0, 0, 0, 0, 0, 0, // header
    0x37, 0, 0, 0, 8, 0, 0, 0, 0, 0, 0, 0, // process 0
    0x8B, 0x04, 0x25, 0, 0, 0x80, 0, // 00: MOV EAX, [800000]
    0xC7, 0x04, 0x25, 0, 0, 0x80, 0, 5, 0, 0, 0, // 07: MOV dword [800000], 5
    0xC7, 0x04, 0x25, 0, 0, 0x80, 0, 1, 0, 0, 0, // 12: MOV dword [800000], 1
    0xC7, 0x04, 0x25, 0, 0, 0x80, 0, 0, 0, 0, 0, // 1D: MOV dword [800000], 0
    0xC7, 0x04, 0x25, 4, 0, 0x80, 0, 7, 0, 0, 0, // 28: MOV dword [800004], 7
    0x0F, 0x01, 0xD4, 0x90, // 33: VMFUNC, of which three NOPs are made; NOP
    0, 0, 0, 0, 0, 0, 0, 0, // the word
];

/// The bundle whose two cores start at these offsets of the text, loaded.
pub fn loaded(alloc: Global, starts: [u8; 2]) -> Result<Loaded, Fail> {
    let mut bytes = Vec::from_slice(alloc, &PROCESS)?;
    for start in starts {
        bytes.extend_from_slice(&[0, 0, 0, 0, start, 0, 0x40, 0, 0, 0, 0, 0])?;
    }
    let bundle = read_bundle(alloc, &bytes)
        .ok()
        .ok_or("the bytes are a bundle")?;
    Ok(load(alloc, &bundle).ok().ok_or("the bundle may be loaded")?)
}

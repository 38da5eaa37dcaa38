//! A client and a server.

use sb_bundle::read_bundle;
use sb_load::{Loaded, load};
use std::alloc::Global;
use std::test::Fail;

/// The core of the client, in process 0.
pub const CLIENT: u8 = 0;

/// The core of the server, in process 1.
pub const SERVER: u8 = 1;

/// 700 frames and one key word. The client binds to the server, stores across two pages of its heap and into a part of a word,
/// calls the server, prints the reply, and reads at 0. The server counts its calls.
#[rattlefmt::skip]
const BUNDLE: [u8; 185] = [
    0x53, 0x4B, 0x59, 0x42, 1, 0, 2, 2, 0xBC, 0x02, 0, 0, 1, 0, 0, 0, 0, 0, 0, 0, // header
    0x88, 0x77, 0x66, 0x55, 0x44, 0x33, 0x22, 0x11, // the key word
    0x3E, 0, 0, 0, 0, 0, 0, 0, 2, 0, 0, 0, // process 0
    0xBF, 1, 0, 0, 0, 0xB8, 3, 0, 0, 0, 0x0F, 0x05, // 00: MOV EDI, 1; MOV EAX, 3; SYSCALL
    0xC7, 0x04, 0x25, 0xFE, 0x0F, 0xC0, 0, 0x44, 0x33, 0x22, 0x11, // 0C: MOV dword [C00FFE], 11223344
    0xC7, 0x04, 0x25, 0x04, 0, 0xC0, 0, 5, 0, 0, 0, // 17: MOV dword [C00004], 5
    0x89, 0xD7, 0x4C, 0x89, 0xC6, // 22: MOV EDI, EDX; MOV RSI, R8
    0xE8, 0xD4, 0xFF, 0xBF, 0x6F, // 27: CALL 70000000
    0x48, 0x89, 0xD7, 0xB8, 1, 0, 0, 0, 0x0F, 0x05, // 2C: MOV RDI, RDX; MOV EAX, 1; SYSCALL
    0x8B, 0x04, 0x25, 0, 0, 0, 0, 0x90, // 36: MOV EAX, [0]; NOP
    0x27, 0, 0, 0, 8, 0, 0, 0, 0, 0, 0, 0, // process 1
    0xBF, 0x17, 0, 0x40, 0, 0xBE, 1, 0, 0, 0, // 00: MOV EDI, 400017; MOV ESI, 1
    0xB8, 2, 0, 0, 0, 0x0F, 0x05, // 0A: MOV EAX, 2; SYSCALL
    0x31, 0xFF, 0x31, 0xC0, 0x0F, 0x05, // 11: XOR EDI, EDI; XOR EAX, EAX; SYSCALL
    0xBA, 1, 0, 0, 0, // 17: MOV EDX, 1
    0xF0, 0x48, 0x0F, 0xC1, 0x14, 0x25, 0, 0, 0x80, 0, 0xC3, // 1C: LOCK XADD [800000], RDX; RET
    7, 0, 0, 0, 0, 0, 0, 0, // the count of calls
    0, 0, 0, 0, 0, 0, 0x40, 0, 0, 0, 0, 0, // core 0
    1, 0, 0, 0, 0, 0, 0x40, 0, 0, 0, 0, 0, // core 1
];

/// The bundle, loaded.
pub fn loaded(alloc: Global) -> Result<Loaded, Fail> {
    let bundle = read_bundle(alloc, &BUNDLE)
        .ok()
        .ok_or("the bytes are a bundle")?;
    Ok(load(alloc, &bundle).ok().ok_or("the bundle may be loaded")?)
}

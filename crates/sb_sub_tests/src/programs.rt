//! Bundles whose threads do rows of actions, one after another. Thread `t` is at home in process `t`.

use std::alloc::{AllocError, Global};

/// What a thread does.
#[derive(Clone, Copy)]
pub enum Action {
    /// A system call with these words in RAX, RDI and RSI, and RAX and RDX after it.
    Call([u64; 3], [u64; 2]),
    /// A store of four bytes at an address.
    Store(u32, u32),
    /// A call of the server behind an index, with a key.
    Enter(u64, u64),
}

/// What a row shows, whose thread does it, in the text of which process it stands, and what is done.
pub type Row = (&'static str, u8, u32, Action);

/// A machine for rows: the frames of its memory, its key words, how many processes and threads it has, and the heap pages of each
/// process.
#[derive(Clone, Copy)]
pub struct Scenario<'a> {
    pub frames: u64,
    pub keys: &'a [u64],
    pub processes: u32,
    pub threads: u8,
    pub heap_pages: u64,
    pub rows: &'a [Row],
}

/// The first address of a text.
const TEXT: u64 = 0x40_0000;

/// The trampoline, which clients call.
const TRAMPOLINE: u64 = 0x7000_0000;

/// What each text ends with: MOV EAX, 00D4010F, which holds the bytes of VMFUNC, so that the process has a rewrite area.
const MOVED: [u8; 5] = [0xB8, 0x0F, 0x01, 0xD4, 0x00];

/// Puts the lowest bytes of a number, so many.
fn push_number(bytes: &mut Vec<u8>, number: u64, size: usize) -> Result<(), AllocError> {
    for &byte in number.to_le_bytes().iter().take(size) {
        bytes.push(byte)?;
    }
    Ok(())
}

/// MOV of three words to RAX, RDI and RSI, 30 bytes.
fn push_words(text: &mut Vec<u8>, words: [u64; 3]) -> Result<(), AllocError> {
    for (register, word) in [0xB8, 0xBF, 0xBE].into_iter().zip(words) {
        text.extend_from_slice(&[0x48, register])?;
        push_number(text, word, 8)?;
    }
    Ok(())
}

/// The instructions of an action: 32 bytes for calls, 11 for a store.
fn push_action(text: &mut Vec<u8>, action: Action) -> Result<(), AllocError> {
    match action {
        Action::Call(words, _) => {
            push_words(text, words)?;
            text.extend_from_slice(&[0x0F, 0x05])
        }
        Action::Enter(index, key) => {
            push_words(text, [TRAMPOLINE, index, key])?;
            text.extend_from_slice(&[0xFF, 0xD0])
        }
        Action::Store(at, word) => {
            text.extend_from_slice(&[0xC7, 0x04, 0x25])?;
            push_number(text, u64::from(at), 4)?;
            push_number(text, u64::from(word), 4)
        }
    }
}

/// The text of a process: its rows.
fn text_of(alloc: Global, process: u32, rows: &[Row]) -> Result<Vec<u8>, AllocError> {
    let mut text = Vec::new(alloc);
    for &(_, _, place, action) in rows {
        if place == process {
            push_action(&mut text, action)?;
        }
    }
    text.extend_from_slice(&MOVED)?;
    Ok(text)
}

/// Puts a process, with two bytes of initial data.
fn push_process(
    bytes: &mut Vec<u8>,
    text: &[u8],
    heap_pages: u64,
    process: u32,
) -> Result<(), AllocError> {
    push_number(bytes, text.len() as u64, 4)?;
    push_number(bytes, 2, 4)?;
    push_number(bytes, heap_pages, 4)?;
    bytes.extend_from_slice(text)?;
    push_number(bytes, 0xA0, 1)?;
    push_number(bytes, u64::from(process), 1)
}

/// Puts the header of a bundle without a schedule, and its key words.
fn push_header(bytes: &mut Vec<u8>, scenario: &Scenario<'_>) -> Result<(), AllocError> {
    bytes.extend_from_slice(&[0x53, 0x4B, 0x59, 0x42, 1, 0])?;
    push_number(bytes, u64::from(scenario.threads), 1)?;
    push_number(bytes, u64::from(scenario.processes), 1)?;
    push_number(bytes, scenario.frames, 4)?;
    push_number(bytes, scenario.keys.len() as u64, 4)?;
    push_number(bytes, 0, 4)?;
    for &key in scenario.keys {
        push_number(bytes, key, 8)?;
    }
    Ok(())
}

/// The bytes of the bundle of a scenario.
pub fn bundle_of(alloc: Global, scenario: &Scenario<'_>) -> Result<Vec<u8>, AllocError> {
    let mut bytes = Vec::new(alloc);
    push_header(&mut bytes, scenario)?;
    for process in 0..scenario.processes {
        let text = text_of(alloc, process, scenario.rows)?;
        push_process(&mut bytes, &text, scenario.heap_pages, process)?;
    }
    for thread in 0..scenario.threads {
        push_number(&mut bytes, u64::from(thread), 4)?;
        push_number(&mut bytes, TEXT, 8)?;
    }
    Ok(bytes)
}

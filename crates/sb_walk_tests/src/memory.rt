//! Calls on whole memory, and on memory that misses a frame and notes its calls.

ghost use Rattle.std.specs.Prelude.{◌≡◌};
ghost use Rattle.sb_memory.specs.Physical.{IsWordPlace};

use crate::same::assert_same;
use crate::sparse::{Sparse, put, some_memory, word_at};
use sb_memory::{Frame, Linear, Memory, Missing, PAGE_SIZE, Phys, PhysAddr};
use std::alloc::{AllocError, Global};
use std::test::Fail;

/// Copies a word of any memory.
fn copy_word<P: Phys>(phys: &mut P, from: PhysAddr, to: PhysAddr) -> Result<(), Missing>
    requires from { IsWordPlace (P.meaning phys.old) from.0 }
    requires to { IsWordPlace (P.meaning phys.old) to.0 }
    ensures kept { P.kept phys.new ≡ P.kept phys.old }
{
    let word = phys.read_word(from)?;
    phys.write_word(to, word)
}

/// The byte at a place, if the place lies in the memory.
fn read<P: Phys>(phys: &mut P, place: u64) -> Option<Result<u8, Missing>> {
    if place >= PAGE_SIZE * u64::from(phys.frames()) {
        return None;
    }
    Some(phys.read_byte(PhysAddr(place)))
}

/// Copies a word, if both places are places for words.
fn copy<P: Phys>(phys: &mut P, from: u64, to: u64) -> Option<Result<(), Missing>> {
    let end = PAGE_SIZE * u64::from(phys.frames());
    if from >= end || to >= end || from % 8 != 0 || to % 8 != 0 {
        return None;
    }
    Some(copy_word(phys, PhysAddr(from), PhysAddr(to)))
}

/// Memory of three frames with a word, a byte over it, and a copy of what came of both.
fn written_memory(alloc: Global) -> Result<Memory, Fail> {
    let mut memory = Memory::new(alloc, 3)?;
    memory.write_word(PhysAddr(0x1000), 0x8000_0000_0025_8005)?;
    memory.write_byte(PhysAddr(0x1001), 0x90)?;
    copy_word(&mut memory, PhysAddr(0x1000), PhysAddr(0x1FF8))?;
    Ok(memory)
}

/// Places, and their bytes in the written memory.
#[rattlefmt::skip]
const BYTES: [(&str, u64, u8); 7] = [
    ("the lowest byte", 0x1000, 0x05),
    ("the byte written over", 0x1001, 0x90),
    ("the highest byte", 0x1007, 0x80),
    ("a byte beside", 0x1008, 0),
    ("the copy's lowest byte", 0x1FF8, 0x05),
    ("the copy's highest byte", 0x1FFF, 0x80),
    ("the next frame", 0x2000, 0),
];

#[test]
fn reads_what_was_written(rt: HostRuntime) -> Result<(), Fail> {
    let mut memory = written_memory(rt.alloc())?;
    for &(shows, place, byte) in &BYTES {
        assert_same(&rt, shows, &read(&mut memory, place), &Some(Ok(byte)));
    }
    assert_same(&rt, "frames", &memory.frames(), &3);
    Ok(())
}

/// The refusal of the missing frame.
const GAP: Missing = Missing { frame: Frame(1) };

/// Words that are copied, from where and to where, and the answers.
#[rattlefmt::skip]
const COPIES: [(&str, u64, u64, Result<(), Missing>); 3] = [
    ("to a frame that is there", 0, 0x2000, Ok(())),
    ("from the missing frame", 0x1008, 0x2000, Err(GAP)),
    ("to the missing frame", 0x2000, 0x1FF8, Err(GAP)),
];

#[test]
fn refuses_a_missing_frame(rt: HostRuntime) {
    let mut memory = some_memory(rt.alloc(), 3).expect(&rt, "memory");
    put(&mut memory, 0, 7);
    let mut sparse = Sparse::without(&mut memory, 1);
    for &(shows, from, to, answer) in &COPIES {
        assert_same(&rt, shows, &copy(&mut sparse, from, to), &Some(answer));
    }
    let places = [0, 0x2000, 0x1008, 0x2000, 0x1FF8, 0, 0, 0];
    assert_same(&rt, "places", &sparse.places, &places);
    assert_same(&rt, "count", &sparse.count, &5);
    assert_same(&rt, "copied", &read(&mut memory, 0x2000), &Some(Ok(7)));
    assert_same(&rt, "not copied", &read(&mut memory, 0x1FF8), &Some(Ok(0)));
}

/// Memory of two frames with three bytes over their border, and a word at the end.
fn bordered_memory(alloc: Global) -> Result<Memory, AllocError> {
    let mut memory = Memory::new(alloc, 2)?;
    memory.set_bytes(PhysAddr(0xFFE), &[0x0F, 0x01, 0xD4]);
    memory.set_word(PhysAddr(0x1FF8), 5);
    Ok(memory)
}

/// The words on both sides of the border, and the last.
fn words_of(memory: &Memory) -> [Option<u64>; 3] {
    [
        word_at(memory, 0xFF8),
        word_at(memory, 0x1000),
        word_at(memory, 0x1FF8),
    ]
}

/// Clears a frame, if it is one of the memory.
fn clear(memory: &mut Memory, frame: u32) {
    if frame < memory.frames() {
        memory.clear_frame(Frame(frame));
    }
}

#[test]
fn an_owner_reads_and_writes(rt: HostRuntime) {
    let mut memory = bordered_memory(rt.alloc()).expect(&rt, "memory");
    let before = 0x010F_0000_0000_0000;
    assert_same(
        &rt,
        "set",
        &words_of(&memory),
        &[Some(before), Some(0xD4), Some(5)],
    );
    clear(&mut memory, 1);
    assert_same(
        &rt,
        "cleared",
        &words_of(&memory),
        &[Some(before), Some(0), Some(0)],
    );
    assert_same(&rt, "bytes", &memory.bytes().len(), &0x2000);
}

/// Addresses, and whether each is canonical.
#[rattlefmt::skip]
const CANONICAL: [(&str, u64, bool); 4] = [
    ("the last address of the lower half", 0x7FFF_FFFF_FFFF, true),
    ("the first that is not canonical", 0x8000_0000_0000, false),
    ("the last that is not canonical", 0xFFFF_7FFF_FFFF_FFFF, false),
    ("the first address of the upper half", 0xFFFF_8000_0000_0000, true),
];

#[test]
fn addresses_have_pages_and_offsets(rt: HostRuntime) {
    for (shows, at, answer) in &CANONICAL {
        assert_same(&rt, shows, &Linear(*at).is_canonical(), answer);
    }
    assert_same(&rt, "page", &Linear(0x40_0FFF).page(), &0x400);
    assert_same(&rt, "offset", &Linear(0x40_0FFF).offset(), &0xFFF);
    assert_same(
        &rt,
        "wraps",
        &Linear(0xFFFF_FFFF_FFFF_FFFF).further(2),
        &Linear(1),
    );
    assert_same(&rt, "base", &Frame(0x258).base(), &PhysAddr(0x25_8000));
    assert_same(&rt, "word", &Frame(0x258).word(511), &PhysAddr(0x25_8FF8));
}

//! The nested walk by itself: where an address of a guest leads, through its page tables behind an EPT.
#![tactic(auto)]

ghost use Rattle.std.specs.Prelude.{◌≡◌};

use sb_eptwalk::is_eptp;
use sb_memory::{Access, Linear, Memory, PAGE_SIZE, Phys, PhysAddr};
use sb_nested::{NestedStop, translate};
use std::io;

/// The EPT begins in frame 1, and CR3 is guest-physical 10000, which the EPT puts at frame 8.
const EPTP: u64 = 0x101E;

const CR3: u64 = 0x10000;

/// The guest's entries for this address have the indices 1, 2, 3 and 4, from the highest table down.
const AT: u64 = 0x80_8060_4123;

/// Places and words: four entries of the EPT's upper tables and five of its last one, and four of the guest.
const TABLES: [(u64, u64); 12] = [
    (0x1000, 0x2007),
    (0x2000, 0x3007),
    (0x3000, 0x4007),
    (0x4080, 0x8037),
    (0x4088, 0x9037),
    (0x4090, 0xA037),
    (0x4098, 0xB037),
    (0x40A0, 0xC031),
    (0x8008, 0x11007),
    (0x9010, 0x12007),
    (0xA018, 0x13007),
    (0xB020, 0x14007),
];

/// Where the address leads, if the EPT pointer leads into the memory, which stays as it is.
fn place_of(memory: &mut Memory, at: u64, access: Access) -> Option<Result<PhysAddr, NestedStop>>
    ensures { memory.new ≡ memory.old }
{
    if !is_eptp(EPTP) || EPTP / PAGE_SIZE >= u64::from(memory.frames()) {
        return None;
    }
    Some(translate(memory, EPTP, CR3, Linear(at), access))
}

fn main(rt: HostRuntime) -> io::Result<()> {
    let mut memory = Memory::new(rt.alloc(), 16)?;
    for &(place, word) in &TABLES {
        if place < PAGE_SIZE * u64::from(memory.frames()) && place % 8 == 0 {
            memory.set_word(PhysAddr(place), word);
        }
    }
    for (at, access) in [(AT, Access::Read), (AT, Access::Write), (0, Access::Read)] {
        match place_of(&mut memory, at, access) {
            Some(Ok(place)) => println!(rt; "{access:?} {at:x}: {:x}", place.0)?,
            Some(Err(stop)) => println!(rt; "{access:?} {at:x}: {stop}")?,
            None => println!(rt; "the EPT pointer leads nowhere")?,
        }
    }
    Ok(())
}

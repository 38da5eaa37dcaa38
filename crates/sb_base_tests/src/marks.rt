//! Marks of steps in a text with one moved instruction and one VMFUNC.

use crate::same::assert_same;
use sb_slots::{Mark, Pass, Slot, Starts, TextMap};
use std::alloc::{AllocError, Global};
use std::test::Fail;

/// The starts of a text: an instruction of 5 bytes that was moved, a VMFUNC, and XOR EAX, EAX.
fn starts(alloc: Global) -> Result<Starts, AllocError> {
    let mut starts = Starts::with_room(alloc, 10)?;
    starts.push(0x40_0000)?;
    starts.push(0x40_0005)?;
    starts.push(0x40_0008)?;
    Ok(starts)
}

/// Its map. The slot has a save, the main that loads a constant, a restore, and a jump back.
fn map(alloc: Global) -> Result<TextMap, AllocError> {
    let slots = vec![in alloc;
        Slot {
            start: 0x40_0000,
            at: 0x1000,
            main: 0x1008,
            end: 0x101D,
            loads_constant: true
        },
    ]?;
    let passes = vec![in alloc;
        Pass {
            from: 0x1000,
            to: 0x1008
        },
        Pass {
            from: 0x1008,
            to: 0x1010
        },
        Pass {
            from: 0x1010,
            to: 0x1018
        },
    ]?;
    Ok(TextMap::new(
        starts(alloc)?,
        10,
        0x1D,
        slots,
        passes,
        vec![in alloc; 0x40_0005]?,
    ))
}

/// Names, where a step is and goes, whether it accesses the scratch page, and its mark.
#[rattlefmt::skip]
const ROWS: [(&str, u64, u64, bool, Mark); 17] = [
    ("the jump to a slot", 0x40_0000, 0x1000, false, Mark::Extra),
    ("the first of the slot", 0x1000, 0x1008, true, Mark::Extra),
    ("main, which loads its constant", 0x1008, 0x1010, true, Mark::Step),
    ("behind main", 0x1010, 0x1018, true, Mark::Extra),
    ("the jump back", 0x1018, 0x40_0005, false, Mark::Extra),
    ("a jump back to the text's end", 0x1018, 0x40_000A, false, Mark::Extra),
    ("the first of three NOPs", 0x40_0005, 0x40_0006, false, Mark::Step),
    ("the second", 0x40_0006, 0x40_0007, false, Mark::Extra),
    ("the third", 0x40_0007, 0x40_0008, false, Mark::Extra),
    ("an instruction of the text", 0x40_0008, 0x40_000A, false, Mark::Step),
    ("one that accesses the scratch page", 0x40_0008, 0x40_000A, true, Mark::Stray),
    ("one of the heap that does", 0x80_0000, 0x80_0002, true, Mark::Stray),
    ("into the area", 0x40_0008, 0x1000, false, Mark::Stray),
    ("into the area behind all slots", 0x40_0008, 0x10FFF, false, Mark::Stray),
    ("between the starts", 0x40_0008, 0x40_0001, false, Mark::Stray),
    ("past an instruction of the slot", 0x1000, 0x1010, true, Mark::Stray),
    ("inside a slot, at none of its instructions", 0x1001, 0x80_0000, false, Mark::Extra),
];

#[test]
fn steps_have_marks(rt: HostRuntime) -> Result<(), Fail> {
    let map = map(rt.alloc())?;
    for (name, at, next, scratch, mark) in &ROWS {
        assert_same(&rt, name, &map.mark(*at, *next, *scratch), mark);
    }
    Ok(())
}

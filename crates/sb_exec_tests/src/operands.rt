//! Where operands are, and what is written to them.

use crate::board::DATA;
use crate::row::{SET, first_failure, instruction};

#[rattlefmt::skip]
#[test]
fn moves_and_addresses(rt: HostRuntime) {
    let rows = [
        instruction("MOV AL, CL leaves the bits above",
            &[0x88, 0xC8], [0x1122_3344_5566_7788, 0x1FF, 0, 0], SET).gives([0x1122_3344_5566_77FF, 0x1FF, 0, 0], SET),
        instruction("MOVZX EAX, CL clears the upper half",
            &[0x0F, 0xB6, 0xC1], [u64::MAX, 0xFFFF_FFFF_FFFF_FF80, 0, 0], SET).gives([0x80, 0xFFFF_FFFF_FFFF_FF80, 0, 0], SET),
        instruction("MOV RAX, -1 extends the sign",
            &[0x48, 0xC7, 0xC0, 0xFF, 0xFF, 0xFF, 0xFF], [0, 0, 0, 0], 0).gives([u64::MAX, 0, 0, 0], 0),
        instruction("MOV EAX, [800000]",
            &[0x8B, 0x04, 0x25, 0, 0, 0x80, 0], [u64::MAX, 0, 0, 0], 0)
            .over(0x8877_6655_4433_2211).gives([0x4433_2211, 0, 0, 0], 0),
        instruction("MOVZX RAX, [800000]",
            &[0x48, 0x0F, 0xB6, 0x04, 0x25, 0, 0, 0x80, 0], [u64::MAX, 0, 0, 0], 0)
            .over(0x8877_6655_4433_2211).gives([0x11, 0, 0, 0], 0),
        instruction("MOV [800000], CL stores one byte",
            &[0x88, 0x0C, 0x25, 0, 0, 0x80, 0], [0, 0x1FF, 0, 0], 0).stores(DATA, 1, 0xFF),
        instruction("ADD [800000], ECX",
            &[0x01, 0x0C, 0x25, 0, 0, 0x80, 0], [0, 5, 0, 0], SET).gives([0, 5, 0, 0], 0).stores(DATA, 4, 7),
        instruction("LEA RAX, [RIP + 10] counts from the next instruction",
            &[0x48, 0x8D, 0x05, 0x10, 0, 0, 0], [0, 0, 0, 0], 0).gives([0x17, 0, 0, 0], 0),
        instruction("LEA RAX, [RCX]: index 4 is none",
            &[0x48, 0x8D, 0x04, 0x21], [0, 0x1000, 0x2000, 0], 0).gives([0x1000, 0x1000, 0x2000, 0], 0),
        instruction("LEA RAX, [RCX + R12 * 4]: index 4 with REX.X is R12",
            &[0x4A, 0x8D, 0x04, 0xA1], [0, 0x1000, 0x2000, 0x10], 0).gives([0x1040, 0x1000, 0x2000, 0x10], 0),
        instruction("LEA EAX, [-10]: no base, and 32 bits of the address",
            &[0x8D, 0x04, 0x25, 0xF0, 0xFF, 0xFF, 0xFF], [u64::MAX, 0, 0, 0], 0).gives([0xFFFF_FFF0, 0, 0, 0], 0),
    ];
    assert_eq!(rt; first_failure(&rows), None);
}

#[rattlefmt::skip]
#[test]
fn exchanges(rt: HostRuntime) {
    let rows = [
        instruction("LOCK CMPXCHG [800000], RCX with RAX unequal stores the old value",
            &[0xF0, 0x48, 0x0F, 0xB1, 0x0C, 0x25, 0, 0, 0x80, 0], [3, 7, 0, 0], 0).gives([2, 7, 0, 0], 0).stores(DATA, 8, 2),
        instruction("LOCK CMPXCHG [800000], RCX with RAX equal",
            &[0xF0, 0x48, 0x0F, 0xB1, 0x0C, 0x25, 0, 0, 0x80, 0], [2, 7, 0, 0], 0).gives([2, 7, 0, 0], 0x44).stores(DATA, 8, 7),
        instruction("CMPXCHG R12D, ECX with EAX equal leaves RAX whole",
            &[0x41, 0x0F, 0xB1, 0xCC], [0xFFFF_FFFF_0000_0005, 9, 0, 0xFFFF_FFFF_0000_0005], 0)
            .gives([0xFFFF_FFFF_0000_0005, 9, 0, 9], 0x44),
        instruction("CMPXCHG R12D, ECX with EAX unequal leaves R12 whole",
            &[0x41, 0x0F, 0xB1, 0xCC], [0xFFFF_FFFF_0000_0005, 9, 0, 0xFFFF_FFFF_0000_0006], 0)
            .gives([6, 9, 0, 0xFFFF_FFFF_0000_0006], 0x85),
        instruction("XADD EAX, EAX writes the sum last", &[0x0F, 0xC1, 0xC0], [5, 0, 0, 0], 0).gives([0xA, 0, 0, 0], 4),
        instruction("XADD [800000], RCX",
            &[0x48, 0x0F, 0xC1, 0x0C, 0x25, 0, 0, 0x80, 0], [0, 7, 0, 0], 0).gives([0, 2, 0, 0], 4).stores(DATA, 8, 9),
        instruction("XCHG [800000], RCX leaves the flags",
            &[0x48, 0x87, 0x0C, 0x25, 0, 0, 0x80, 0], [0, 7, 0, 0], SET).gives([0, 2, 0, 0], SET).stores(DATA, 8, 7),
    ];
    assert_eq!(rt; first_failure(&rows), None);
}

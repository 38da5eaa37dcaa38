//! What operations give, and their flags.

use crate::board::DATA;
use crate::row::{SET, first_failure, instruction};

#[rattlefmt::skip]
#[test]
fn arithmetic_and_its_flags(rt: HostRuntime) {
    let rows = [
        instruction("ADD EAX, 1 wraps", &[0x05, 1, 0, 0, 0], [u64::MAX, 0, 0, 0], 0).gives([0, 0, 0, 0], 0x45),
        instruction("ADD RAX, 1 overflows",
            &[0x48, 0x05, 1, 0, 0, 0], [0x7FFF_FFFF_FFFF_FFFF, 0, 0, 0], 0).gives([0x8000_0000_0000_0000, 0, 0, 0], 0x884),
        instruction("SUB EAX, ECX takes ECX from EAX and borrows",
            &[0x29, 0xC8], [3, 5, 0, 0], 0).gives([0xFFFF_FFFE, 5, 0, 0], 0x81),
        instruction("CMP EAX, ECX overflows and writes nothing",
            &[0x39, 0xC8], [0xFFFF_FFFF_8000_0000, 1, 0, 0], 0).gives([0xFFFF_FFFF_8000_0000, 1, 0, 0], 0x804),
        instruction("NEG RAX of the least number",
            &[0x48, 0xF7, 0xD8], [0x8000_0000_0000_0000, 0, 0, 0], 0).gives([0x8000_0000_0000_0000, 0, 0, 0], 0x885),
        instruction("INC EAX keeps CF", &[0xFF, 0xC0], [0x7FFF_FFFF, 0, 0, 0], 1).gives([0x8000_0000, 0, 0, 0], 0x885),
        instruction("DEC RAX keeps CF", &[0x48, 0xFF, 0xC8], [0, 0, 0, 0], 1).gives([u64::MAX, 0, 0, 0], 0x85),
        instruction("NOT EAX leaves the flags",
            &[0xF7, 0xD0], [0xFFFF_FFFF_0000_0000, 0, 0, 0], SET).gives([0xFFFF_FFFF, 0, 0, 0], SET),
        instruction("TEST EAX, ECX clears CF and OF", &[0x85, 0xC8], [0xF0, 0x0F, 0, 0], SET).gives([0xF0, 0x0F, 0, 0], 0x44),
        instruction("IMUL RAX, RCX does not fit",
            &[0x48, 0x0F, 0xAF, 0xC1], [0x4000_0000_0000_0000, 4, 0, 0], 0).gives([0, 4, 0, 0], 0x801),
        instruction("IMUL EAX, ECX, -2 keeps ZF and PF",
            &[0x6B, 0xC1, 0xFE], [0, 3, 0, 0], SET).gives([0xFFFF_FFFA, 3, 0, 0], 0xC4),
        instruction("BSF RAX, RCX of 0", &[0x48, 0x0F, 0xBC, 0xC1], [9, 0, 0, 0], 0).gives([9, 0, 0, 0], 0x40),
        instruction("BSF EAX, ECX of 0 leaves RAX whole",
            &[0x0F, 0xBC, 0xC1], [0xFFFF_FFFF_0000_0009, 0xFFFF_FFFF_0000_0000, 0, 0], SET),
        instruction("BSF EAX, ECX", &[0x0F, 0xBC, 0xC1], [0, 0x50, 0, 0], SET).gives([4, 0x50, 0, 0], 0x885),
    ];
    assert_eq!(rt; first_failure(&rows), None);
}

#[rattlefmt::skip]
#[test]
fn shifts(rt: HostRuntime) {
    let rows = [
        instruction("SHL EAX, 1 moves the top bit out", &[0xC1, 0xE0, 1], [0x8000_0000, 0, 0, 0], 0).gives([0, 0, 0, 0], 0x845),
        instruction("SAR RAX, 4 of a negative number",
            &[0x48, 0xC1, 0xF8, 4], [0xFFFF_FFFF_FFFF_FF00, 0, 0, 0], 0).gives([0xFFFF_FFFF_FFFF_FFF0, 0, 0, 0], 0x84),
        instruction("SHL EAX, 32 shifts by 0, which clears the upper half",
            &[0xC1, 0xE0, 32], [0xFFFF_FFFF_0000_0003, 0, 0, 0], SET).gives([3, 0, 0, 0], SET),
        instruction("SHR RAX, CL takes the count modulo 64",
            &[0x48, 0xD3, 0xE8], [0x8000_0000_0000_0001, 0x41, 0, 0], 0).gives([0x4000_0000_0000_0000, 0x41, 0, 0], 0x805),
        instruction("SHR EAX, 255 takes the byte as unsigned",
            &[0xC1, 0xE8, 0xFF], [0xFFFF_FFFF, 0, 0, 0], 0).gives([1, 0, 0, 0], 1),
        instruction("SHL [800000], 0 stores", &[0xC1, 0x24, 0x25, 0, 0, 0x80, 0, 0], [0, 0, 0, 0], SET).stores(DATA, 4, 2),
    ];
    assert_eq!(rt; first_failure(&rows), None);
}

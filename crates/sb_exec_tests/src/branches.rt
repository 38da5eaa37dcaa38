//! The stack, jumps, and what is left to the caller.

use crate::board::DATA;
use crate::row::{SET, first_failure, instruction};
use sb_exec::Effect;

#[rattlefmt::skip]
#[test]
fn stack_and_jumps(rt: HostRuntime) {
    let top = DATA + 8;
    let rows = [
        instruction("PUSH RSP stores the old RSP", &[0x54], [0, 0, top, 0], 0).gives([0, 0, DATA, 0], 0).stores(DATA, 8, top),
        instruction("PUSH -1 stores 64 bits",
            &[0x6A, 0xFF], [0, 0, top, 0], 0).gives([0, 0, DATA, 0], 0).stores(DATA, 8, u64::MAX),
        instruction("POP RSP leaves what was loaded", &[0x5C], [0, 0, DATA, 0], 0).over(0x1234).gives([0, 0, 0x1234, 0], 0),
        instruction("POP R12", &[0x41, 0x5C], [0, 0, DATA, 5], 0).gives([0, 0, top, 2], 0),
        instruction("CALL pushes the next address",
            &[0xE8, 0x10, 0, 0, 0], [0, 0, top, 0], 0).gives([0, 0, DATA, 0], 0).stores(DATA, 8, 5).leads_to(0x15),
        instruction("CALL [800000] loads before it pushes",
            &[0xFF, 0x14, 0x25, 0, 0, 0x80, 0], [0, 0, top, 0], 0).over(0x1234).gives([0, 0, DATA, 0], 0)
            .stores(DATA, 8, 7).leads_to(0x1234),
        instruction("RET", &[0xC3], [0, 0, DATA, 0], 0).over(0x4321).gives([0, 0, top, 0], 0).leads_to(0x4321),
        instruction("JMP to itself", &[0xEB, 0xFE], [0, 0, 0, 0], 0).leads_to(0),
        instruction("JMP RCX", &[0xFF, 0xE1], [0, 0x55, 0, 0], 0).leads_to(0x55),
        instruction("JZ with ZF", &[0x74, 0x10], [0, 0, 0, 0], 0x40).leads_to(0x12),
        instruction("JZ without", &[0x74, 0x10], [0, 0, 0, 0], 0x885),
        instruction("JNZ without ZF", &[0x75, 0x10], [0, 0, 0, 0], 0).leads_to(0x12),
        instruction("JL with SF alone", &[0x7C, 0x10], [0, 0, 0, 0], 0x80).leads_to(0x12),
        instruction("JL with SF and OF", &[0x7C, 0x10], [0, 0, 0, 0], 0x880),
        instruction("JG with SF and OF", &[0x7F, 0x10], [0, 0, 0, 0], 0x880).leads_to(0x12),
        instruction("JA with CF", &[0x0F, 0x87, 0, 1, 0, 0], [0, 0, 0, 0], 1),
        instruction("NOP [RAX] accesses nothing", &[0x0F, 0x1F, 0x00], [0, 0, 0, 0], SET),
        instruction("ENDBR64", &[0xF3, 0x0F, 0x1E, 0xFA], [0, 0, 0, 0], SET),
        instruction("SYSCALL", &[0x0F, 0x05], [1, 2, 3, 4], SET).ends_in(Effect::Syscall),
        instruction("VMFUNC", &[0x0F, 0x01, 0xD4], [1, 2, 3, 4], SET).ends_in(Effect::Switch),
        instruction("UD2", &[0x0F, 0x0B], [1, 2, 3, 4], SET).ends_in(Effect::Undefined),
    ];
    assert_eq!(rt; first_failure(&rows), None);
}

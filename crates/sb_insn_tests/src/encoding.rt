//! How instructions are encoded, and that what was read is encoded as it was read.

use crate::same::assert_same;
use sb_decode::decode;
use sb_encode::encode;
use sb_insn::{Disp, Imm, Insn, Op};

/// Whether an instruction is valid, and these bytes spell it.
fn is_spelled(insn: &Insn, bytes: &[u8]) -> bool {
    insn.is_valid() && encode(insn).as_slice() == bytes
}

#[test]
fn spells_every_field(rt: HostRuntime) {
    let insn = Insn {
        lock: true,
        rex: Some(0x48),
        op: Op::One(0x81),
        modrm: Some(0x84),
        sib: Some(0x25),
        disp: Disp::D32(0x80_0000),
        imm: Imm::I32(-2),
    };
    let bytes: [u8; 13] = [
        0xF0, 0x48, 0x81, 0x84, 0x25, 0, 0, 0x80, 0, 0xFE, 0xFF, 0xFF, 0xFF,
    ];
    assert_same(&rt, "every field", &is_spelled(&insn, &bytes), &true);
}

/// Names, and the bytes of one instruction.
#[rattlefmt::skip]
const SPELLINGS: [(&str, &[u8]); 10] = [
    ("LOCK CMPXCHG [70006000], RCX", &[0xF0, 0x48, 0x0F, 0xB1, 0x0C, 0x25, 0, 0x60, 0, 0x70]),
    ("MOV AL, SPL", &[0x40, 0x88, 0xE0]),
    ("RET", &[0xC3]),
    ("MOV RAX, of 8 bytes", &[0x48, 0xB8, 1, 2, 3, 4, 5, 6, 7, 8]),
    ("JMP back by 2", &[0xEB, 0xFE]),
    ("ADD [RBP - 8], 1", &[0x48, 0x83, 0x45, 0xF8, 0x01]),
    ("SYSCALL", &[0x0F, 0x05]),
    ("VMFUNC", &[0x0F, 0x01, 0xD4]),
    ("ENDBR64", &[0xF3, 0x0F, 0x1E, 0xFA]),
    ("XOR EAX, EAX by reg, rm", &[0x33, 0xC0]),
];

/// Whether bytes are one instruction, whose encoding they are.
fn are_spelled_again(bytes: &[u8]) -> bool {
    match decode(bytes) {
        Ok((insn, length)) => length == bytes.len() && encode(&insn).as_slice() == bytes,
        Err(_) => false,
    }
}

#[test]
fn spells_again_what_was_read(rt: HostRuntime) {
    for (name, bytes) in &SPELLINGS {
        assert_same(&rt, name, &are_spelled_again(bytes), &true);
    }
}

//! What bytes are decoded as, how long it is, and which are short or undecoded.

use crate::same::assert_same;
use sb_decode::{DecodeFault, decode};
use sb_insn::{Disp, Imm, Insn, Op};

const LONGEST: Insn = Insn {
    lock: true,
    rex: Some(0x48),
    op: Op::One(0x81),
    modrm: Some(0x84),
    sib: Some(0x25),
    disp: Disp::D32(0x80_0000),
    imm: Imm::I32(1),
};

const RET: Insn = Insn {
    lock: false,
    rex: None,
    op: Op::One(0xC3),
    modrm: None,
    sib: None,
    disp: Disp::None,
    imm: Imm::None,
};

/// Decodes bytes, without the contract of `decode`, which tests do not need.
fn decoded(bytes: &[u8]) -> Result<(Insn, usize), DecodeFault> {
    decode(bytes)
}

/// Names, bytes, their instruction, and its length.
#[rattlefmt::skip]
const FIELDS: [(&str, &[u8], Insn, usize); 7] = [
    ("LOCK ADD [RBP + 800000], 1", &[0xF0, 0x48, 0x81, 0x84, 0x25, 0, 0, 0x80, 0, 1, 0, 0, 0], LONGEST, 13),
    ("XOR EAX, EAX", &[0x31, 0xC0, 0xFF], Insn { op: Op::One(0x31), modrm: Some(0xC0), ..RET }, 2),
    ("MOV EDI, -2", &[0xBF, 0xFE, 0xFF, 0xFF, 0xFF], Insn { op: Op::One(0xBF), imm: Imm::I32(-2), ..RET }, 5),
    ("JMP back by 2", &[0xEB, 0xFE], Insn { op: Op::One(0xEB), imm: Imm::I8(-2), ..RET }, 2),
    ("SYSCALL", &[0x0F, 0x05], Insn { op: Op::Two(0x05), ..RET }, 2),
    ("VMFUNC", &[0x0F, 0x01, 0xD4], Insn { op: Op::Vmfunc, ..RET }, 3),
    ("ENDBR64", &[0xF3, 0x0F, 0x1E, 0xFA], Insn { op: Op::Endbr, ..RET }, 4),
];

#[test]
fn reads_every_field(rt: HostRuntime) {
    for &(name, bytes, insn, length) in &FIELDS {
        assert_same(&rt, name, &decoded(bytes), &Ok((insn, length)));
    }
}

/// Names, bytes, and the length of their instruction.
#[rattlefmt::skip]
const LENGTHS: [(&str, &[u8], usize); 10] = [
    ("LOCK CMPXCHG [70006000], RCX", &[0xF0, 0x48, 0x0F, 0xB1, 0x0C, 0x25, 0, 0x60, 0, 0x70], 10),
    ("MOV AL, SPL", &[0x40, 0x88, 0xE0], 3),
    ("MOVZX EAX, SPL", &[0x40, 0x0F, 0xB6, 0xC4], 4),
    ("MOV RAX, of 8 bytes", &[0x48, 0xB8, 1, 2, 3, 4, 5, 6, 7, 8], 10),
    ("TEST EAX has an immediate", &[0xF7, 0xC0, 1, 0, 0, 0], 6),
    ("NOT EAX has none", &[0xF7, 0xD0, 1, 0, 0, 0], 2),
    ("RIP-relative", &[0x8B, 0x05, 0, 0, 0, 0], 6),
    ("no base register", &[0x8B, 0x04, 0x25, 0, 0, 0, 0], 7),
    ("base R13", &[0x41, 0x8B, 0x45, 0x00], 4),
    ("NOP of memory", &[0x0F, 0x1F, 0x84, 0x00, 0, 0, 0, 0], 8),
];

#[test]
fn tells_where_an_instruction_ends(rt: HostRuntime) {
    for &(name, bytes, length) in &LENGTHS {
        let found = decoded(bytes).map(|found| found.1);
        assert_same(&rt, name, &found, &Ok(length));
    }
}

/// Names, and bytes that some longer input makes an instruction.
#[rattlefmt::skip]
const SHORT: [(&str, &[u8]); 11] = [
    ("no byte", &[]),
    ("no second opcode byte", &[0x0F]),
    ("ENDBR64 without its last byte", &[0xF3, 0x0F, 0x1E]),
    ("VMFUNC without its last byte", &[0x0F, 0x01]),
    ("LOCK ADD without ModRM", &[0xF0, 0x01]),
    ("LOCK, and group 1", &[0xF0, 0x81]),
    ("LOCK, and group 1 with one byte", &[0xF0, 0x83]),
    ("LOCK, and group 3", &[0xF0, 0xF7]),
    ("LOCK, and group 5", &[0xF0, 0xFF]),
    ("no SIB", &[0x8B, 0x04]),
    ("the longest without its last byte", &[0xF0, 0x48, 0x81, 0x84, 0x25, 0, 0, 0x80, 0, 1, 0, 0]),
];

/// Names, and bytes that no longer input makes an instruction.
#[rattlefmt::skip]
const UNDECODED: [(&str, &[u8]); 21] = [
    ("MOV AL, AH", &[0x88, 0xE0]),
    ("MOVZX EAX, AH", &[0x0F, 0xB6, 0xC4]),
    ("AAM", &[0xD4]),
    ("INT3", &[0xCC]),
    ("LOCK ADD of a register", &[0xF0, 0x01, 0xD4]),
    ("LOCK CMP", &[0xF0, 0x39]),
    ("LOCK CMP with REX", &[0xF0, 0x48, 0x39]),
    ("LOCK CMP by digit", &[0xF0, 0x81, 0x38]),
    ("PAUSE", &[0xF3, 0x90]),
    ("REX before RET", &[0x48, 0xC3]),
    ("two REX bytes", &[0x48, 0x48]),
    ("two REX bytes before MOV", &[0x48, 0x48, 0x89]),
    ("REX before LOCK", &[0x48, 0xF0]),
    ("REX before VMFUNC", &[0x48, 0x0F, 0x01]),
    ("operand-size prefix", &[0x66, 0x90]),
    ("LEA of a register", &[0x8D, 0xC0]),
    ("no F7 /1", &[0xF7, 0xC8]),
    ("no C1 /6", &[0xC1, 0xF0]),
    ("no 0F 1F /1", &[0x0F, 0x1F, 0x08]),
    ("CLTS", &[0x0F, 0x06]),
    ("0F 01 without D4", &[0x0F, 0x01, 0xD5]),
];

#[test]
fn tells_short_from_undecoded(rt: HostRuntime) {
    for (name, bytes) in &SHORT {
        assert_same(&rt, name, &decoded(bytes), &Err(DecodeFault::Short));
    }
    for (name, bytes) in &UNDECODED {
        assert_same(&rt, name, &decoded(bytes), &Err(DecodeFault::Undecoded));
    }
}

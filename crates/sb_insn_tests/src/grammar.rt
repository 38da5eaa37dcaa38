//! Which instructions are valid, how long they are, what the maps call them, and where direct jumps lead.

use crate::same::assert_same;
use sb_insn::{
    Disp, Flags, Imm, Insn, Mnemonic, Op, OperandForm, base, index, instruction_of, mod_field,
    modrm_opcode_of, reg_field, rex_b, rex_r, rex_w, rex_x, rm_field, scale,
};

const ADD: Insn = Insn {
    lock: false,
    rex: None,
    op: Op::One(0x01),
    modrm: Some(0xC8),
    sib: None,
    disp: Disp::None,
    imm: Imm::None,
};

const LOCK_ADD: Insn = Insn {
    lock: true,
    modrm: Some(0x08),
    ..ADD
};

const RET: Insn = Insn {
    op: Op::One(0xC3),
    modrm: None,
    ..ADD
};

const MOV_BYTE: Insn = Insn {
    op: Op::One(0x88),
    modrm: Some(0xE0),
    ..ADD
};

const MOV_64: Insn = Insn {
    rex: Some(0x48),
    op: Op::One(0xB8),
    modrm: None,
    imm: Imm::I64(2),
    ..ADD
};

const NO_BASE: Insn = Insn {
    modrm: Some(0x0C),
    sib: Some(0x25),
    disp: Disp::D32(0x7000_6000),
    ..ADD
};

const LONGEST: Insn = Insn {
    lock: true,
    rex: Some(0x48),
    op: Op::One(0x81),
    modrm: Some(0x84),
    sib: Some(0x25),
    disp: Disp::D32(0x80_0000),
    imm: Imm::I32(1),
};

/// Names, instructions, whether they are valid, and their lengths.
#[rattlefmt::skip]
const LENGTHS: [(&str, Insn, bool, usize); 21] = [
    ("ADD EAX, ECX", ADD, true, 2),
    ("LOCK ADD [RAX], ECX", LOCK_ADD, true, 3),
    ("LOCK on a register", Insn { lock: true, ..ADD }, false, 3),
    ("LOCK CMP", Insn { op: Op::One(0x39), ..LOCK_ADD }, false, 3),
    ("RET", RET, true, 1),
    ("RET with REX", Insn { rex: Some(0x48), ..RET }, false, 2),
    ("MOV AL, AH", MOV_BYTE, false, 2),
    ("MOV AL, SPL", Insn { rex: Some(0x40), ..MOV_BYTE }, true, 3),
    ("50 is no REX", Insn { rex: Some(0x50), ..MOV_BYTE }, false, 3),
    ("MOV RAX, 2", MOV_64, true, 10),
    ("MOV EAX, 2 of 8 bytes", Insn { rex: None, ..MOV_64 }, false, 9),
    ("ADD [70006000], ECX", NO_BASE, true, 7),
    ("no base, no displacement", Insn { disp: Disp::None, ..NO_BASE }, false, 3),
    ("LEA EAX, EAX", Insn { op: Op::One(0x8D), ..ADD }, false, 2),
    ("NEG EAX", Insn { op: Op::One(0xF7), modrm: Some(0xD8), ..ADD }, true, 2),
    ("no instruction at F7 /1", Insn { op: Op::One(0xF7), ..ADD }, false, 2),
    ("the longest", LONGEST, true, 13),
    ("SYSCALL", Insn { op: Op::Two(0x05), ..RET }, true, 2),
    ("VMFUNC", Insn { op: Op::Vmfunc, ..RET }, true, 3),
    ("0F 01 alone", Insn { op: Op::Two(0x01), ..RET }, false, 2),
    ("ENDBR64", Insn { op: Op::Endbr, ..RET }, true, 4),
];

#[test]
fn knows_valid_instructions_and_lengths(rt: HostRuntime) {
    for (name, insn, valid, length) in &LENGTHS {
        assert_same(&rt, name, &insn.is_valid(), valid);
        assert_same(&rt, name, &insn.length(), length);
    }
}

/// Names, instructions, and what the maps call them.
#[rattlefmt::skip]
const LISTED: [(&str, Insn, Option<(Mnemonic, OperandForm)>); 6] = [
    ("ADD", ADD, Some((Mnemonic::Add, OperandForm::RmReg))),
    ("MOV of a byte", MOV_BYTE, Some((Mnemonic::Mov, OperandForm::RmReg))),
    ("81 /0", LONGEST, Some((Mnemonic::Add, OperandForm::RmImm))),
    ("RET", RET, Some((Mnemonic::Ret, OperandForm::Nothing))),
    ("F7 /1", Insn { op: Op::One(0xF7), ..ADD }, None),
    ("AAM", Insn { op: Op::One(0xD4), ..RET }, None),
];

#[test]
fn finds_instructions_in_the_maps(rt: HostRuntime) {
    for (name, insn, expected) in &LISTED {
        let found = instruction_of(insn).map(|found| (found.mnemonic, found.form));
        assert_same(&rt, name, &found, expected);
    }
    let of_bytes = modrm_opcode_of(&MOV_BYTE).map(|operand| (operand.byte_reg, operand.byte_rm));
    assert_same(&rt, "MOV of a byte", &of_bytes, &Some((true, true)));
    assert_same(&rt, "RET", &modrm_opcode_of(&RET).is_none(), &true);
}

/// Names, instructions, their addresses, and where they lead.
#[rattlefmt::skip]
const JUMPS: [(&str, Insn, u64, Option<u64>); 5] = [
    ("JMP back by 2", Insn { op: Op::One(0xEB), imm: Imm::I8(-2), ..RET }, 0x40_0000, Some(0x40_0000)),
    ("CALL", Insn { op: Op::One(0xE8), imm: Imm::I32(0x100), ..RET }, 0x40_0000, Some(0x40_0105)),
    ("JNE over the end", Insn { op: Op::Two(0x85), imm: Imm::I32(0), ..RET }, u64::MAX, Some(5)),
    ("CALL RAX", Insn { op: Op::One(0xFF), modrm: Some(0xD0), ..ADD }, 0x40_0000, None),
    ("PUSH -2", Insn { op: Op::One(0x6A), imm: Imm::I8(-2), ..RET }, 0x40_0000, None),
];

#[test]
fn tells_where_direct_jumps_lead(rt: HostRuntime) {
    for (name, insn, at, target) in &JUMPS {
        assert_same(&rt, name, &insn.direct_target(*at), target);
        assert_same(&rt, name, &insn.is_direct(), &target.is_some());
    }
}

/// W, R, X and B of a REX byte.
fn bits_of(rex: Option<u8>) -> [u8; 4] {
    [rex_w(rex), rex_r(rex), rex_x(rex), rex_b(rex)]
}

/// REX bytes, and their W, R, X and B.
const REX_BITS: [(&str, Option<u8>, [u8; 4]); 5] = [
    ("W", Some(0x48), [1, 0, 0, 0]),
    ("R", Some(0x44), [0, 1, 0, 0]),
    ("X", Some(0x42), [0, 0, 1, 0]),
    ("B", Some(0x41), [0, 0, 0, 1]),
    ("no REX", None, [0, 0, 0, 0]),
];

#[test]
fn splits_bytes_into_fields(rt: HostRuntime) {
    let modrm = (mod_field(0x9C), reg_field(0x9C), rm_field(0x9C));
    assert_same(&rt, "ModRM", &modrm, &(2, 3, 4));
    let sib = (scale(0x9C), index(0x9C), base(0x9C));
    assert_same(&rt, "SIB", &sib, &(2, 3, 4));
    for (name, rex, bits) in &REX_BITS {
        assert_same(&rt, name, &bits_of(*rex), bits);
    }
}

#[test]
fn puts_the_flags_at_their_places(rt: HostRuntime) {
    let all = Flags {
        cf: true,
        pf: true,
        zf: true,
        sf: true,
        of: true,
    };
    assert_same(&rt, "all", &all.image(), &0x8C5);
    assert_same(&rt, "none", &Flags::CLEAR.image(), &0);
}

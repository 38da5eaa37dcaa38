//! The opcode maps as tables, a cell for each opcode, as the SDM prints them (volume 2, tables A-2 and A-3).
//!
//! The names of cells have the SDM's codes of operands (volume 2, appendix A.2): `EV` is rm, `GV` is reg, `EB` and `GB` are
//! the same of one byte, `M` is memory, `RAX` is the accumulator, `REG` is the register in the opcode, `IB` and `IZ` are
//! immediates of one and of four bytes, `IV` is one of eight with REX.W, `JB` and `JZ` are distances, `CL` is CL. A name of a
//! group has that of its table.

use crate::opcode_map::{
    Cell, Group, ImmRule, Instruction, Mnemonic, ModRmOpcode, NoModRmOpcode, OperandForm, RexRule,
    RmRule,
};

// ---- what stands with an opcode, by macros, since a constant's value calls no function

macro_rules! modrm {
    ($lock:literal, $rm:ident, $byte_reg:literal, $byte_rm:literal, $mnemonic:ident, $form:ident, $imm:ident) => {
        Cell::ModRm(ModRmOpcode {
            lock: $lock,
            rm: RmRule::$rm,
            byte_reg: $byte_reg,
            byte_rm: $byte_rm,
            imm: ImmRule::$imm,
            instruction: Instruction {
                mnemonic: Mnemonic::$mnemonic,
                form: OperandForm::$form,
            },
        })
    };
}

/// rm is a destination: LOCK may stand where it names memory.
macro_rules! lockable {
    ($mnemonic:ident, $form:ident, $imm:ident) => {
        modrm!(true, Any, false, false, $mnemonic, $form, $imm)
    };
}

/// LOCK may not stand.
macro_rules! not_lockable {
    ($mnemonic:ident, $form:ident, $imm:ident) => {
        modrm!(false, Any, false, false, $mnemonic, $form, $imm)
    };
}

/// rm names memory, whose address is the operand.
macro_rules! address {
    ($mnemonic:ident, $form:ident) => {
        modrm!(false, Memory, false, false, $mnemonic, $form, None)
    };
}

/// Both operands are bytes.
macro_rules! of_bytes {
    ($mnemonic:ident, $form:ident) => {
        modrm!(false, Any, true, true, $mnemonic, $form, None)
    };
}

/// rm is a byte, and reg is not.
macro_rules! from_byte {
    ($mnemonic:ident, $form:ident) => {
        modrm!(false, Any, false, true, $mnemonic, $form, None)
    };
}

/// An opcode without ModRM byte.
macro_rules! no_modrm {
    ($rex:ident, $mnemonic:ident, $form:ident, $imm:ident) => {
        Cell::NoModRm(NoModRmOpcode {
            rex: RexRule::$rex,
            imm: ImmRule::$imm,
            instruction: Instruction {
                mnemonic: Mnemonic::$mnemonic,
                form: OperandForm::$form,
            },
        })
    };
}

// ---- cells

const ABSENT: Cell = Cell::Absent;

const ADD_EV_GV: Cell = lockable!(Add, RmReg, None);

const ADD_GV_EV: Cell = not_lockable!(Add, RegRm, None);

const ADD_RAX_IZ: Cell = no_modrm!(Permitted, Add, AccImm, I32);

const OR_EV_GV: Cell = lockable!(Or, RmReg, None);

const OR_GV_EV: Cell = not_lockable!(Or, RegRm, None);

const OR_RAX_IZ: Cell = no_modrm!(Permitted, Or, AccImm, I32);

const AND_EV_GV: Cell = lockable!(And, RmReg, None);

const AND_GV_EV: Cell = not_lockable!(And, RegRm, None);

const AND_RAX_IZ: Cell = no_modrm!(Permitted, And, AccImm, I32);

const SUB_EV_GV: Cell = lockable!(Sub, RmReg, None);

const SUB_GV_EV: Cell = not_lockable!(Sub, RegRm, None);

const SUB_RAX_IZ: Cell = no_modrm!(Permitted, Sub, AccImm, I32);

const XOR_EV_GV: Cell = lockable!(Xor, RmReg, None);

const XOR_GV_EV: Cell = not_lockable!(Xor, RegRm, None);

const XOR_RAX_IZ: Cell = no_modrm!(Permitted, Xor, AccImm, I32);

const CMP_EV_GV: Cell = not_lockable!(Cmp, RmReg, None);

const CMP_GV_EV: Cell = not_lockable!(Cmp, RegRm, None);

const CMP_RAX_IZ: Cell = no_modrm!(Permitted, Cmp, AccImm, I32);

const PUSH_REG: Cell = no_modrm!(Permitted, Push, Opcode, None);

const POP_REG: Cell = no_modrm!(Permitted, Pop, Opcode, None);

const PUSH_IZ: Cell = no_modrm!(Refused, Push, Imm, I32);

const IMUL_IZ: Cell = not_lockable!(Imul, RegRmImm, I32);

const PUSH_IB: Cell = no_modrm!(Refused, Push, Imm, I8);

const IMUL_IB: Cell = not_lockable!(Imul, RegRmImm, I8);

const JCC_JB: Cell = no_modrm!(Refused, Jcc, Relative, I8);

const GROUP1_IZ: Cell = Cell::Extended(Group::Group1, OperandForm::RmImm, ImmRule::I32);

const GROUP1_IB: Cell = Cell::Extended(Group::Group1, OperandForm::RmImm, ImmRule::I8);

const TEST_EV_GV: Cell = not_lockable!(Test, RmReg, None);

const XCHG_EV_GV: Cell = lockable!(Xchg, RmReg, None);

const MOV_EB_GB: Cell = of_bytes!(Mov, RmReg);

const MOV_EV_GV: Cell = not_lockable!(Mov, RmReg, None);

const MOV_GB_EB: Cell = of_bytes!(Mov, RegRm);

const MOV_GV_EV: Cell = not_lockable!(Mov, RegRm, None);

const LEA_GV_M: Cell = address!(Lea, RegRm);

const NOP: Cell = no_modrm!(Refused, Nop, Nothing, None);

const MOV_REG_IV: Cell = no_modrm!(Permitted, Mov, OpcodeImm, Wide);

const GROUP2_IB: Cell = Cell::Extended(Group::Group2, OperandForm::RmCount, ImmRule::I8);

const RET: Cell = no_modrm!(Refused, Ret, Nothing, None);

const GROUP11_IZ: Cell = Cell::Extended(Group::Group11, OperandForm::RmImm, ImmRule::I32);

const GROUP2_CL: Cell = Cell::Extended(Group::Group2, OperandForm::RmCl, ImmRule::None);

const CALL_JZ: Cell = no_modrm!(Refused, Call, Relative, I32);

const JMP_JZ: Cell = no_modrm!(Refused, Jmp, Relative, I32);

const JMP_JB: Cell = no_modrm!(Refused, Jmp, Relative, I8);

const GROUP3_EV: Cell = Cell::Extended(Group::Group3, OperandForm::Rm, ImmRule::None);

const GROUP5_EV: Cell = Cell::Extended(Group::Group5, OperandForm::Rm, ImmRule::None);

// behind 0F
const SYSCALL: Cell = no_modrm!(Refused, Syscall, Nothing, None);

const UD2: Cell = no_modrm!(Refused, Ud2, Nothing, None);

const GROUP16_EV: Cell = Cell::Extended(Group::Group16, OperandForm::Rm, ImmRule::None);

const JCC_JZ: Cell = no_modrm!(Refused, Jcc, Relative, I32);

const IMUL_GV_EV: Cell = not_lockable!(Imul, RegRm, None);

const CMPXCHG_EV: Cell = lockable!(Cmpxchg, RmReg, None);

const MOVZX_EB: Cell = from_byte!(Movzx, RegRm);

const BSF_GV_EV: Cell = not_lockable!(Bsf, RegRm, None);

const XADD_EV_GV: Cell = lockable!(Xadd, RmReg, None);

/// The cell of ENDBR64.
pub const ENDBR64: Cell = no_modrm!(Refused, Endbr64, Nothing, None);

/// The cell of VMFUNC.
pub const VMFUNC: Cell = no_modrm!(Refused, Vmfunc, Nothing, None);

// ---- the maps: eight opcodes a line

/// The one-byte opcode map.
#[rattlefmt::skip]
pub static ONE_BYTE: [Cell; 256] = [
    ABSENT,     ADD_EV_GV,  ABSENT,     ADD_GV_EV,  ABSENT,     ADD_RAX_IZ, ABSENT,     ABSENT,     // 00
    ABSENT,     OR_EV_GV,   ABSENT,     OR_GV_EV,   ABSENT,     OR_RAX_IZ,  ABSENT,     ABSENT,     // 08
    ABSENT,     ABSENT,     ABSENT,     ABSENT,     ABSENT,     ABSENT,     ABSENT,     ABSENT,     // 10
    ABSENT,     ABSENT,     ABSENT,     ABSENT,     ABSENT,     ABSENT,     ABSENT,     ABSENT,     // 18
    ABSENT,     AND_EV_GV,  ABSENT,     AND_GV_EV,  ABSENT,     AND_RAX_IZ, ABSENT,     ABSENT,     // 20
    ABSENT,     SUB_EV_GV,  ABSENT,     SUB_GV_EV,  ABSENT,     SUB_RAX_IZ, ABSENT,     ABSENT,     // 28
    ABSENT,     XOR_EV_GV,  ABSENT,     XOR_GV_EV,  ABSENT,     XOR_RAX_IZ, ABSENT,     ABSENT,     // 30
    ABSENT,     CMP_EV_GV,  ABSENT,     CMP_GV_EV,  ABSENT,     CMP_RAX_IZ, ABSENT,     ABSENT,     // 38
    ABSENT,     ABSENT,     ABSENT,     ABSENT,     ABSENT,     ABSENT,     ABSENT,     ABSENT,     // 40
    ABSENT,     ABSENT,     ABSENT,     ABSENT,     ABSENT,     ABSENT,     ABSENT,     ABSENT,     // 48
    PUSH_REG,   PUSH_REG,   PUSH_REG,   PUSH_REG,   PUSH_REG,   PUSH_REG,   PUSH_REG,   PUSH_REG,   // 50
    POP_REG,    POP_REG,    POP_REG,    POP_REG,    POP_REG,    POP_REG,    POP_REG,    POP_REG,    // 58
    ABSENT,     ABSENT,     ABSENT,     ABSENT,     ABSENT,     ABSENT,     ABSENT,     ABSENT,     // 60
    PUSH_IZ,    IMUL_IZ,    PUSH_IB,    IMUL_IB,    ABSENT,     ABSENT,     ABSENT,     ABSENT,     // 68
    JCC_JB,     JCC_JB,     JCC_JB,     JCC_JB,     JCC_JB,     JCC_JB,     JCC_JB,     JCC_JB,     // 70
    JCC_JB,     JCC_JB,     JCC_JB,     JCC_JB,     JCC_JB,     JCC_JB,     JCC_JB,     JCC_JB,     // 78
    ABSENT,     GROUP1_IZ,  ABSENT,     GROUP1_IB,  ABSENT,     TEST_EV_GV, ABSENT,     XCHG_EV_GV, // 80
    MOV_EB_GB,  MOV_EV_GV,  MOV_GB_EB,  MOV_GV_EV,  ABSENT,     LEA_GV_M,   ABSENT,     ABSENT,     // 88
    NOP,        ABSENT,     ABSENT,     ABSENT,     ABSENT,     ABSENT,     ABSENT,     ABSENT,     // 90
    ABSENT,     ABSENT,     ABSENT,     ABSENT,     ABSENT,     ABSENT,     ABSENT,     ABSENT,     // 98
    ABSENT,     ABSENT,     ABSENT,     ABSENT,     ABSENT,     ABSENT,     ABSENT,     ABSENT,     // A0
    ABSENT,     ABSENT,     ABSENT,     ABSENT,     ABSENT,     ABSENT,     ABSENT,     ABSENT,     // A8
    ABSENT,     ABSENT,     ABSENT,     ABSENT,     ABSENT,     ABSENT,     ABSENT,     ABSENT,     // B0
    MOV_REG_IV, MOV_REG_IV, MOV_REG_IV, MOV_REG_IV, MOV_REG_IV, MOV_REG_IV, MOV_REG_IV, MOV_REG_IV, // B8
    ABSENT,     GROUP2_IB,  ABSENT,     RET,        ABSENT,     ABSENT,     ABSENT,     GROUP11_IZ, // C0
    ABSENT,     ABSENT,     ABSENT,     ABSENT,     ABSENT,     ABSENT,     ABSENT,     ABSENT,     // C8
    ABSENT,     ABSENT,     ABSENT,     GROUP2_CL,  ABSENT,     ABSENT,     ABSENT,     ABSENT,     // D0
    ABSENT,     ABSENT,     ABSENT,     ABSENT,     ABSENT,     ABSENT,     ABSENT,     ABSENT,     // D8
    ABSENT,     ABSENT,     ABSENT,     ABSENT,     ABSENT,     ABSENT,     ABSENT,     ABSENT,     // E0
    CALL_JZ,    JMP_JZ,     ABSENT,     JMP_JB,     ABSENT,     ABSENT,     ABSENT,     ABSENT,     // E8
    ABSENT,     ABSENT,     ABSENT,     ABSENT,     ABSENT,     ABSENT,     ABSENT,     GROUP3_EV,  // F0
    ABSENT,     ABSENT,     ABSENT,     ABSENT,     ABSENT,     ABSENT,     ABSENT,     GROUP5_EV,  // F8
];

/// The two-byte opcode map, behind 0F.
#[rattlefmt::skip]
pub static TWO_BYTE: [Cell; 256] = [
    ABSENT,     ABSENT,     ABSENT,     ABSENT,     ABSENT,     SYSCALL,    ABSENT,     ABSENT,     // 00
    ABSENT,     ABSENT,     ABSENT,     UD2,        ABSENT,     ABSENT,     ABSENT,     ABSENT,     // 08
    ABSENT,     ABSENT,     ABSENT,     ABSENT,     ABSENT,     ABSENT,     ABSENT,     ABSENT,     // 10
    ABSENT,     ABSENT,     ABSENT,     ABSENT,     ABSENT,     ABSENT,     ABSENT,     GROUP16_EV, // 18
    ABSENT,     ABSENT,     ABSENT,     ABSENT,     ABSENT,     ABSENT,     ABSENT,     ABSENT,     // 20
    ABSENT,     ABSENT,     ABSENT,     ABSENT,     ABSENT,     ABSENT,     ABSENT,     ABSENT,     // 28
    ABSENT,     ABSENT,     ABSENT,     ABSENT,     ABSENT,     ABSENT,     ABSENT,     ABSENT,     // 30
    ABSENT,     ABSENT,     ABSENT,     ABSENT,     ABSENT,     ABSENT,     ABSENT,     ABSENT,     // 38
    ABSENT,     ABSENT,     ABSENT,     ABSENT,     ABSENT,     ABSENT,     ABSENT,     ABSENT,     // 40
    ABSENT,     ABSENT,     ABSENT,     ABSENT,     ABSENT,     ABSENT,     ABSENT,     ABSENT,     // 48
    ABSENT,     ABSENT,     ABSENT,     ABSENT,     ABSENT,     ABSENT,     ABSENT,     ABSENT,     // 50
    ABSENT,     ABSENT,     ABSENT,     ABSENT,     ABSENT,     ABSENT,     ABSENT,     ABSENT,     // 58
    ABSENT,     ABSENT,     ABSENT,     ABSENT,     ABSENT,     ABSENT,     ABSENT,     ABSENT,     // 60
    ABSENT,     ABSENT,     ABSENT,     ABSENT,     ABSENT,     ABSENT,     ABSENT,     ABSENT,     // 68
    ABSENT,     ABSENT,     ABSENT,     ABSENT,     ABSENT,     ABSENT,     ABSENT,     ABSENT,     // 70
    ABSENT,     ABSENT,     ABSENT,     ABSENT,     ABSENT,     ABSENT,     ABSENT,     ABSENT,     // 78
    JCC_JZ,     JCC_JZ,     JCC_JZ,     JCC_JZ,     JCC_JZ,     JCC_JZ,     JCC_JZ,     JCC_JZ,     // 80
    JCC_JZ,     JCC_JZ,     JCC_JZ,     JCC_JZ,     JCC_JZ,     JCC_JZ,     JCC_JZ,     JCC_JZ,     // 88
    ABSENT,     ABSENT,     ABSENT,     ABSENT,     ABSENT,     ABSENT,     ABSENT,     ABSENT,     // 90
    ABSENT,     ABSENT,     ABSENT,     ABSENT,     ABSENT,     ABSENT,     ABSENT,     ABSENT,     // 98
    ABSENT,     ABSENT,     ABSENT,     ABSENT,     ABSENT,     ABSENT,     ABSENT,     ABSENT,     // A0
    ABSENT,     ABSENT,     ABSENT,     ABSENT,     ABSENT,     ABSENT,     ABSENT,     IMUL_GV_EV, // A8
    ABSENT,     CMPXCHG_EV, ABSENT,     ABSENT,     ABSENT,     ABSENT,     MOVZX_EB,   ABSENT,     // B0
    ABSENT,     ABSENT,     ABSENT,     ABSENT,     BSF_GV_EV,  ABSENT,     ABSENT,     ABSENT,     // B8
    ABSENT,     XADD_EV_GV, ABSENT,     ABSENT,     ABSENT,     ABSENT,     ABSENT,     ABSENT,     // C0
    ABSENT,     ABSENT,     ABSENT,     ABSENT,     ABSENT,     ABSENT,     ABSENT,     ABSENT,     // C8
    ABSENT,     ABSENT,     ABSENT,     ABSENT,     ABSENT,     ABSENT,     ABSENT,     ABSENT,     // D0
    ABSENT,     ABSENT,     ABSENT,     ABSENT,     ABSENT,     ABSENT,     ABSENT,     ABSENT,     // D8
    ABSENT,     ABSENT,     ABSENT,     ABSENT,     ABSENT,     ABSENT,     ABSENT,     ABSENT,     // E0
    ABSENT,     ABSENT,     ABSENT,     ABSENT,     ABSENT,     ABSENT,     ABSENT,     ABSENT,     // E8
    ABSENT,     ABSENT,     ABSENT,     ABSENT,     ABSENT,     ABSENT,     ABSENT,     ABSENT,     // F0
    ABSENT,     ABSENT,     ABSENT,     ABSENT,     ABSENT,     ABSENT,     ABSENT,     ABSENT,     // F8
];

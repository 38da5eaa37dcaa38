//! What the cells of the opcode maps say (SDM volume 2, appendix A): which fields stand behind an opcode, and which
//! instruction it is.

/// The name of an instruction (SDM volume 2, chapters 3 to 5; VMFUNC: volume 3).
#[derive(Clone, Copy, Debug, PartialEq, Eq)]
pub enum Mnemonic {
    /// Add.
    Add,
    /// Logical inclusive OR.
    Or,
    /// Logical AND.
    And,
    /// Subtract.
    Sub,
    /// Logical exclusive OR.
    Xor,
    /// Compare two operands.
    Cmp,
    /// Logical compare.
    Test,
    /// Move.
    Mov,
    /// Move with zero-extend.
    Movzx,
    /// Load effective address.
    Lea,
    /// One's complement negation.
    Not,
    /// Two's complement negation.
    Neg,
    /// Signed multiply.
    Imul,
    /// Shift left.
    Shl,
    /// Shift right, unsigned.
    Shr,
    /// Shift right, signed.
    Sar,
    /// Increment by 1.
    Inc,
    /// Decrement by 1.
    Dec,
    /// Push onto the stack.
    Push,
    /// Pop a value from the stack.
    Pop,
    /// Jump.
    Jmp,
    /// Jump if a condition is met: the condition is the lowest four bits of the opcode.
    Jcc,
    /// Call a procedure.
    Call,
    /// Return from a procedure.
    Ret,
    /// Exchange.
    Xchg,
    /// Compare and exchange.
    Cmpxchg,
    /// Exchange and add.
    Xadd,
    /// Bit scan forward.
    Bsf,
    /// No operation.
    Nop,
    /// Terminate an indirect branch.
    Endbr64,
    /// Fast system call.
    Syscall,
    /// Undefined instruction.
    Ud2,
    /// Invoke a VM function.
    Vmfunc,
}

/// How the operands are encoded, the destination first: the column Op/En of the SDM.
#[derive(Clone, Copy, Debug, PartialEq, Eq)]
pub enum OperandForm {
    /// rm, and reg.
    RmReg,
    /// reg, and rm.
    RegRm,
    /// rm, and the immediate.
    RmImm,
    /// The accumulator, and the immediate.
    AccImm,
    /// The register in the opcode, and the immediate.
    OpcodeImm,
    /// reg, rm, and the immediate.
    RegRmImm,
    /// rm, and one byte of immediate that is a count.
    RmCount,
    /// rm, and CL.
    RmCl,
    /// rm.
    Rm,
    /// The register in the opcode.
    Opcode,
    /// The immediate.
    Imm,
    /// The distance from the next instruction, in the immediate.
    Relative,
    /// No operand.
    Nothing,
}

/// An instruction of the maps: what it does, and to which operands.
#[derive(Clone, Copy, Debug, PartialEq, Eq)]
pub struct Instruction {
    /// What it does.
    pub mnemonic: Mnemonic,
    /// How its operands are encoded.
    pub form: OperandForm,
}

/// Whether a REX prefix may stand before an opcode without ModRM byte.
#[derive(Clone, Copy, Debug, PartialEq, Eq)]
pub enum RexRule {
    /// No REX prefix.
    Refused,
    /// Any REX prefix, or none.
    Permitted,
}

/// Which operands rm may name.
#[derive(Clone, Copy, Debug, PartialEq, Eq)]
pub enum RmRule {
    /// A register or memory.
    Any,
    /// Memory: mod is not 3.
    Memory,
}

/// Which immediate stands behind an opcode.
#[derive(Clone, Copy, Debug, PartialEq, Eq)]
pub enum ImmRule {
    /// No immediate.
    None,
    /// One byte.
    I8,
    /// Four bytes.
    I32,
    /// Eight bytes with REX.W, else four.
    Wide,
}

/// What stands with an opcode that has no ModRM byte. LOCK never does.
#[derive(Clone, Copy, Debug, PartialEq, Eq)]
pub struct NoModRmOpcode {
    /// Whether REX may stand.
    pub rex: RexRule,
    /// Which immediate stands.
    pub imm: ImmRule,
    /// Which instruction it is.
    pub instruction: Instruction,
}

/// What stands with an opcode that has a ModRM byte. REX may always.
#[derive(Clone, Copy, Debug, PartialEq, Eq)]
pub struct ModRmOpcode {
    /// LOCK may stand, where rm names memory.
    pub lock: bool,
    /// What rm may name.
    pub rm: RmRule,
    /// reg names a byte register.
    pub byte_reg: bool,
    /// rm names a byte register or a byte of memory.
    pub byte_rm: bool,
    /// Which immediate stands.
    pub imm: ImmRule,
    /// Which instruction it is.
    pub instruction: Instruction,
}

/// Opcodes that the reg field of ModRM extends, by the numbers that the SDM gives them (volume 2, table A-6).
#[derive(Clone, Copy, Debug, PartialEq, Eq)]
pub enum Group {
    /// ADD, OR, AND, SUB, XOR and CMP with an immediate.
    Group1,
    /// Shifts.
    Group2,
    /// TEST with an immediate, NOT and NEG.
    Group3,
    /// INC, DEC, CALL, JMP and PUSH.
    Group5,
    /// MOV of an immediate.
    Group11,
    /// NOP with an operand.
    Group16,
}

/// A cell of an opcode map.
#[derive(Clone, Copy, Debug, PartialEq, Eq)]
pub enum Cell {
    /// No instruction of the subset.
    Absent,
    /// An opcode without ModRM byte.
    NoModRm(NoModRmOpcode),
    /// An opcode with a ModRM byte.
    ModRm(ModRmOpcode),
    /// An opcode that the reg field of its ModRM byte extends, with the operands and the immediate of its group.
    Extended(Group, OperandForm, ImmRule),
}

//! The instruction that does the work of a moved one: the same with other operands.

ghost use Rattle.std.specs.Prelude.{◌≡◌, ◌+◌, ◌≤◌, false, length};
ghost use Rattle.sb_insn.specs.declared.opcode_map.Mnemonic.{Mnemonic};
ghost use Rattle.sb_insn.specs.Spelling.{spelling, op_bytes, imm_bytes};
ghost use Rattle.sb_forms.specs.Mains.{
  at_helper,
  own_register,
  with_displacement,
  with_helper,
  register_op,
  with_constant,
  on_register,
  move_product,
  behind_main,
  load_target,
  load_word,
};
ghost use Rattle.sb_forms.specs.Table.{spelled_bytes};

use crate::code::Code;
use crate::helper::Helper;
use crate::pieces::{SCRATCH_WORD, opcode_alone, wide, wide_at_address};
use sb_insn::{
    Disp, Imm, Insn, Mnemonic, Op, OperandForm, last_opcode_byte, modrm_of, reg_field, rex_b,
    rex_r, rm_field, with_r_b,
};

/// A displacement of one byte 00.
const ZERO: Disp = Disp::D8(0);

/// What rm names.
#[derive(Clone, Copy, Debug)]
pub struct RmOperand {
    /// The fields mod and rm of ModRM, with reg 0.
    pub mod_rm: u8,
    /// The displacement.
    pub disp: Disp,
    /// REX.B.
    pub rex_b: u8,
}

/// Memory at a helper: mod 1 with the displacement 0.
#[tactic(auto, unfolding(crate::specs::Mains::at_helper))]
fn at_helper(helper: Helper) -> RmOperand
    ensures value { result ≡ at_helper helper }
    ensures room { result.mod_rm ≤ 0x47 }
    ensures bit { result.rex_b ≤ 1 }
{
    RmOperand {
        mod_rm: 0x40 + helper.number(),
        disp: ZERO,
        rex_b: 0,
    }
}

/// The register that the instruction has as its operand beside reg and the immediate: RAX, the one in the opcode, or rm.
#[tactic(auto, unfolding(crate::specs::Mains::own_register))]
fn own_register(form: OperandForm, insn: &Insn) -> RmOperand
    ensures value { result ≡ own_register form insn.now }
    ensures room { result.mod_rm ≤ 0xC7 }
    ensures bit { result.rex_b ≤ 1 }
{
    match form {
        OperandForm::AccImm => RmOperand {
            mod_rm: 0xC0,
            disp: Disp::None,
            rex_b: 0,
        },
        OperandForm::OpcodeImm => RmOperand {
            mod_rm: 0xC0 + last_opcode_byte(insn.op) % 8,
            disp: Disp::None,
            rex_b: rex_b(insn.rex),
        },
        OperandForm::RmReg
        | OperandForm::RegRm
        | OperandForm::RmImm
        | OperandForm::RegRmImm
        | OperandForm::RmCount
        | OperandForm::RmCl
        | OperandForm::Rm
        | OperandForm::Opcode
        | OperandForm::Imm
        | OperandForm::Relative
        | OperandForm::Nothing => RmOperand {
            mod_rm: 0xC0 + rm_field(modrm_of(insn)),
            disp: Disp::None,
            rex_b: rex_b(insn.rex),
        },
    }
}

/// The instruction at ModRM 0F, [RDI] or [R15], with a displacement 0.
#[tactic(auto, unfolding(crate::specs::Mains::with_displacement))]
pub fn with_displacement(insn: &Insn) -> Insn
    ensures { result ≡ with_displacement insn.now }
{
    Insn {
        rex: with_r_b(insn.rex, rex_r(insn.rex), rex_b(insn.rex)),
        modrm: Some(0x4F),
        disp: ZERO,
        ..*insn
    }
}

/// The instruction with its memory operand at a helper.
#[tactic(auto, using(crate::proofs::Lengths::with_helper_9), unfolding(crate::specs::Mains::with_helper))]
pub fn with_helper(helper: Helper, insn: &Insn) -> Insn
    requires { length (op_bytes insn.now.op) + length (imm_bytes insn.now.imm) ≤ 5 }
    ensures value { result ≡ with_helper helper insn.now }
    ensures size { length (spelling result) ≤ 9 }
{
    let operand = at_helper(helper);
    Insn {
        rex: with_r_b(insn.rex, rex_r(insn.rex), 0),
        modrm: Some(operand.mod_rm + 8 * reg_field(modrm_of(insn))),
        sib: None,
        disp: operand.disp,
        ..*insn
    }
}

/// The opcode of the same instruction on rm and reg, or for IMUL on reg and rm.
fn register_op(mnemonic: Mnemonic) -> Op
    ensures { result ≡ register_op mnemonic }
{
    match mnemonic {
        Mnemonic::Add => Op::One(0x01),
        Mnemonic::Or => Op::One(0x09),
        Mnemonic::And => Op::One(0x21),
        Mnemonic::Sub => Op::One(0x29),
        Mnemonic::Xor => Op::One(0x31),
        Mnemonic::Cmp => Op::One(0x39),
        Mnemonic::Test => Op::One(0x85),
        Mnemonic::Imul => Op::Two(0xAF),
        Mnemonic::Mov
        | Mnemonic::Movzx
        | Mnemonic::Lea
        | Mnemonic::Not
        | Mnemonic::Neg
        | Mnemonic::Shl
        | Mnemonic::Shr
        | Mnemonic::Sar
        | Mnemonic::Inc
        | Mnemonic::Dec
        | Mnemonic::Push
        | Mnemonic::Pop
        | Mnemonic::Jmp
        | Mnemonic::Jcc
        | Mnemonic::Call
        | Mnemonic::Ret
        | Mnemonic::Xchg
        | Mnemonic::Cmpxchg
        | Mnemonic::Xadd
        | Mnemonic::Bsf
        | Mnemonic::Nop
        | Mnemonic::Endbr64
        | Mnemonic::Syscall
        | Mnemonic::Ud2
        | Mnemonic::Vmfunc => Op::One(0x89),
    }
}

/// The instruction with its immediate in a helper, which reg names.
#[tactic(auto, unfolding(crate::specs::Mains::with_constant))]
fn with_constant(mnemonic: Mnemonic, insn: &Insn, operand: RmOperand, helper: Helper) -> Insn
    requires room { operand.mod_rm ≤ 0xC7 }
    requires bit { operand.rex_b ≤ 1 }
    ensures { result ≡ with_constant mnemonic insn.now operand helper }
{
    Insn {
        rex: with_r_b(insn.rex, 0, operand.rex_b),
        op: register_op(mnemonic),
        modrm: Some(operand.mod_rm + 8 * helper.number()),
        sib: None,
        disp: operand.disp,
        imm: Imm::None,
        ..*insn
    }
}

/// The same with its memory operand at another helper.
#[tactic(auto, using(crate::proofs::Lengths::constant_main_8))]
pub fn on_memory(mnemonic: Mnemonic, insn: &Insn, address: Helper, helper: Helper) -> Insn
    requires { mnemonic ≡ Mnemonic.Imul → insn.now.lock ≡ false }
    ensures value { result ≡ with_constant mnemonic insn.now (at_helper address) helper }
    ensures size { length (spelling result) + length (spelled_bytes (behind_main mnemonic insn.now helper)) ≤ 8 }
{
    with_constant(mnemonic, insn, at_helper(address), helper)
}

/// The same with the register that is its operand.
#[tactic(auto, using(crate::proofs::Lengths::alone_5))]
fn on_own_register(mnemonic: Mnemonic, form: OperandForm, insn: &Insn, helper: Helper) -> Insn
    ensures value { result ≡ with_constant mnemonic insn.now (own_register form insn.now) helper }
    ensures size { length (spelling result) ≤ 5 }
{
    with_constant(mnemonic, insn, own_register(form, insn), helper)
}

/// The same where the instruction has no memory operand; PUSH has its register in the opcode.
#[tactic(auto, unfolding(crate::specs::Mains::on_register))]
pub fn on_register(mnemonic: Mnemonic, form: OperandForm, insn: &Insn, helper: Helper) -> Insn
    ensures value { result ≡ on_register mnemonic form insn.now helper }
    ensures size { length (spelling result) ≤ 5 }
{
    match mnemonic {
        Mnemonic::Push => opcode_alone(0x50 + helper.number()),
        Mnemonic::Add
        | Mnemonic::Or
        | Mnemonic::And
        | Mnemonic::Sub
        | Mnemonic::Xor
        | Mnemonic::Cmp
        | Mnemonic::Test
        | Mnemonic::Mov
        | Mnemonic::Movzx
        | Mnemonic::Lea
        | Mnemonic::Imul
        | Mnemonic::Not
        | Mnemonic::Neg
        | Mnemonic::Shl
        | Mnemonic::Shr
        | Mnemonic::Sar
        | Mnemonic::Inc
        | Mnemonic::Dec
        | Mnemonic::Pop
        | Mnemonic::Jmp
        | Mnemonic::Jcc
        | Mnemonic::Call
        | Mnemonic::Ret
        | Mnemonic::Xchg
        | Mnemonic::Cmpxchg
        | Mnemonic::Xadd
        | Mnemonic::Bsf
        | Mnemonic::Nop
        | Mnemonic::Endbr64
        | Mnemonic::Syscall
        | Mnemonic::Ud2
        | Mnemonic::Vmfunc => on_own_register(mnemonic, form, insn, helper),
    }
}

/// `mov reg, helper`: the product of IMUL.
#[tactic(auto, unfolding(crate::specs::Mains::move_product))]
fn move_product(insn: &Insn, helper: Helper) -> Insn
    ensures value { result ≡ move_product insn.now helper }
    ensures size { length (spelling result) ≤ 3 }
{
    Insn {
        rex: with_r_b(insn.rex, 0, rex_r(insn.rex)),
        modrm: Some(0xC0 + 8 * helper.number() + reg_field(modrm_of(insn))),
        ..opcode_alone(0x89)
    }
}

/// What stands behind the main instruction before the helpers are restored.
#[tactic(auto, unfolding(crate::specs::Mains::behind_main))]
pub fn behind(mnemonic: Mnemonic, insn: &Insn, helper: Helper) -> Code
    ensures code { result ≡ spelled_bytes (behind_main mnemonic insn.now helper) }
    ensures size { length result ≤ 3 }
{
    match mnemonic {
        Mnemonic::Imul => Code::of(&move_product(insn, helper)),
        Mnemonic::Add
        | Mnemonic::Or
        | Mnemonic::And
        | Mnemonic::Sub
        | Mnemonic::Xor
        | Mnemonic::Cmp
        | Mnemonic::Test
        | Mnemonic::Mov
        | Mnemonic::Movzx
        | Mnemonic::Lea
        | Mnemonic::Not
        | Mnemonic::Neg
        | Mnemonic::Shl
        | Mnemonic::Shr
        | Mnemonic::Sar
        | Mnemonic::Inc
        | Mnemonic::Dec
        | Mnemonic::Push
        | Mnemonic::Pop
        | Mnemonic::Jmp
        | Mnemonic::Jcc
        | Mnemonic::Call
        | Mnemonic::Ret
        | Mnemonic::Xchg
        | Mnemonic::Cmpxchg
        | Mnemonic::Xadd
        | Mnemonic::Bsf
        | Mnemonic::Nop
        | Mnemonic::Endbr64
        | Mnemonic::Syscall
        | Mnemonic::Ud2
        | Mnemonic::Vmfunc => Code::new(),
    }
}

/// `mov helper, [helper + 0]`.
#[tactic(auto, unfolding(crate::specs::Mains::load_target))]
pub fn load_target(helper: Helper) -> Insn
    ensures value { result ≡ load_target helper }
    ensures size { length (spelling result) ≡ 4 }
{
    Insn {
        disp: ZERO,
        ..wide(0x8B, 0x40 + 9 * helper.number())
    }
}

/// `mov` of the word in the scratch page to the register in the opcode.
#[tactic(auto, unfolding(crate::specs::Mains::load_word))]
pub fn load_word(insn: &Insn) -> Insn
    ensures value { result ≡ load_word insn.now }
    ensures size { length (spelling result) ≡ 8 }
{
    Insn {
        rex: Some(0x48 + 4 * rex_b(insn.rex)),
        ..wide_at_address(0x8B, last_opcode_byte(insn.op) % 8, SCRATCH_WORD)
    }
}

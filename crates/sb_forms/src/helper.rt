//! Helper registers: those that a moved instruction does not name, and that its slot saves and restores.

ghost use Rattle.std.specs.Prelude.{◌≡◌, ◌≤◌};
ghost use Rattle.sb_forms.specs.Registers.{
  is_number,
  form_number,
  is_named,
  number_of,
  is_taken,
  is_free,
  first_free,
  first_helper,
  second_helper,
};

use sb_insn::{Insn, OperandForm, base_number, index_number, opcode_number, reg_number, rm_number};

/// A register that may help, in the order in which they are tried.
#[derive(Clone, Copy, Debug, PartialEq, Eq)]
pub enum Helper {
    /// Register 1.
    Rcx,
    /// Register 2.
    Rdx,
    /// Register 3.
    Rbx,
    /// Register 6.
    Rsi,
    /// Register 7.
    Rdi,
}

/// All of them.
const HELPERS: [Helper; 5] = [
    Helper::Rcx,
    Helper::Rdx,
    Helper::Rbx,
    Helper::Rsi,
    Helper::Rdi,
];

impl Helper {
    /// Its number, which has no bit in REX.
    pub fn number(self) -> u8
        ensures value { result ≡ number_of self }
        ensures low { result ≤ 7 }
    {
        match self {
            Helper::Rcx => 1,
            Helper::Rdx => 2,
            Helper::Rbx => 3,
            Helper::Rsi => 6,
            Helper::Rdi => 7,
        }
    }
}

/// The register that the operands name beside rm: reg, the one in the opcode, or CL.
fn form_number(form: OperandForm, insn: &Insn) -> Option<u8>
    ensures { result ≡ form_number form insn.now }
{
    match form {
        OperandForm::RmReg | OperandForm::RegRm | OperandForm::RegRmImm => Some(reg_number(insn)),
        OperandForm::OpcodeImm | OperandForm::Opcode => Some(opcode_number(insn)),
        OperandForm::RmCl => Some(Helper::Rcx.number()),
        OperandForm::RmImm
        | OperandForm::AccImm
        | OperandForm::RmCount
        | OperandForm::Rm
        | OperandForm::Imm
        | OperandForm::Relative
        | OperandForm::Nothing => None,
    }
}

/// Whether it is the number of a register that may be absent.
fn is_number(named: Option<u8>, number: u8) -> bool
    ensures { result ≡ is_number named number }
{
    match named {
        None => false,
        Some(named) => named == number,
    }
}

/// Whether the instruction, with operands of this form, names the register.
#[tactic(auto, unfolding(crate::specs::Registers::is_named))]
fn is_named(form: OperandForm, insn: &Insn, number: u8) -> bool
    ensures { result ≡ is_named form insn.now number }
{
    is_number(rm_number(insn), number)
        || (is_number(base_number(insn), number)
            || (is_number(index_number(insn), number)
                || is_number(form_number(form, insn), number)))
}

/// Whether the helper is the one that is taken, if one is.
fn is_taken(taken: Option<Helper>, helper: Helper) -> bool
    ensures { result ≡ is_taken taken helper }
{
    match taken {
        None => false,
        Some(taken) => taken.number() == helper.number(),
    }
}

/// Whether the instruction does not name the helper, and it is not taken.
fn is_free(form: OperandForm, insn: &Insn, taken: Option<Helper>, helper: Helper) -> bool
    ensures { result ≡ is_free form insn.now taken helper }
{
    !is_named(form, insn, helper.number()) && !is_taken(taken, helper)
}

/// The first of some helpers that is free, RDI where none is.
fn first_free(form: OperandForm, insn: &Insn, taken: Option<Helper>, helpers: &[Helper]) -> Helper
    ensures { result ≡ first_free form insn.now taken helpers.now }
{
    for &helper in helpers {
        if is_free(form, insn, taken, helper) {
            return helper;
        }
    }
    Helper::Rdi
}

/// The first helper of an instruction with operands of this form. It names at most three registers, so one is free.
#[tactic(auto, unfolding(crate::specs::Registers::first_helper))]
pub fn first_helper(form: OperandForm, insn: &Insn) -> Helper
    ensures { result ≡ first_helper form insn.now }
{
    first_free(form, insn, None, &HELPERS)
}

/// The second helper, where two are needed.
#[tactic(auto, unfolding(crate::specs::Registers::second_helper))]
pub fn second_helper(form: OperandForm, insn: &Insn) -> Helper
    ensures { result ≡ second_helper form insn.now }
{
    first_free(form, insn, Some(first_helper(form, insn)), &HELPERS)
}

//! Which form applies to an instruction.

ghost use Rattle.std.specs.Prelude.{◌≡◌, ◌+◌, ◌≤◌, true, false, [], ◌∷◌, length};
ghost use Rattle.sb_abi.specs.declared.space.TheConstants.{AREA_ADDRESS};
ghost use Rattle.sb_insn.specs.declared.opcode_map.Mnemonic.{Mnemonic};
ghost use Rattle.sb_insn.specs.Spelling.{op_bytes, imm_bytes, spelling};
ghost use Rattle.sb_insn.specs.Grammar.{IsValid};
ghost use Rattle.sb_insn.specs.Lookup.{instruction_of};
ghost use Rattle.sb_forms.specs.Answers.{IsSite, IsSmall, HasRoom, IsCleanForm, area_end};
ghost use Rattle.sb_forms.specs.Places.{HasForm, IsInText};
ghost use Rattle.sb_insn.specs.Fields.{has_memory};
ghost use Rattle.sb_forms.specs.Table.{
  nop,
  add_from_rm,
  spelled_bytes,
  is_vmfunc,
  is_add_esp_edx,
  completes_pattern,
  begins_with_01_d4,
  begins_at_modrm,
  is_call,
  is_jump,
  form_by,
  slot_form,
  slot_form_of,
  is_exchangeable,
  held_form,
  replacement,
  bytes_of,
  site_of,
  form_of,
};

use crate::answer::Form;
use crate::code::Code;
use crate::pattern::{insn_holds_pattern, number_holds_pattern};
use crate::pieces::{is_sib_0f, opcode_alone, sib_exchanged};
use crate::slots::{
    Site, address_and_constant_slot, address_slot, constant_slot, displaced, jump_slot,
    wide_constant_slot,
};
use sb_insn::{Imm, Insn, Instruction, Mnemonic, Op, has_memory, instruction_of};

/// Whether it is VMFUNC.
fn is_vmfunc(op: Op) -> bool
    ensures { result ≡ is_vmfunc op }
{
    matches!(op, Op::Vmfunc)
}

/// Whether it is ADD ESP, EDX, spelled `01 D4`.
fn is_add_esp_edx(insn: &Insn) -> bool
    ensures { result ≡ is_add_esp_edx insn.now }
{
    insn.rex.is_none() && insn.op == Op::One(0x01) && insn.modrm == Some(0xD4)
}

/// Whether it is that, behind a byte 0F.
fn completes_pattern(insn: &Insn, after_0f: bool) -> bool
    ensures { result ≡ completes_pattern insn.now after_0f }
{
    is_add_esp_edx(insn) && after_0f
}

/// Whether it is an immediate of four bytes that begins with `01 D4`.
fn begins_with_01_d4(imm: Imm) -> bool
    ensures { result ≡ begins_with_01_d4 imm }
{
    match imm {
        Imm::I32(value) => {
            let bytes = value.to_le_bytes();
            bytes[0] == 0x01 && bytes[1] == 0xD4
        }
        Imm::None | Imm::I8(_) | Imm::I64(_) => false,
    }
}

/// Whether the bytes of VMFUNC begin at ModRM: it is 0F, with no SIB byte and no displacement behind it.
fn begins_at_modrm(insn: &Insn) -> bool
    ensures { result ≡ begins_at_modrm insn.now }
{
    insn.modrm == Some(0x0F) && begins_with_01_d4(insn.imm)
}

/// Whether it is CALL.
fn is_call(mnemonic: Mnemonic) -> bool
    ensures { result ≡ is_call mnemonic }
{
    matches!(mnemonic, Mnemonic::Call)
}

/// Whether it is JMP.
fn is_jump(mnemonic: Mnemonic) -> bool
    ensures { result ≡ is_jump mnemonic }
{
    matches!(mnemonic, Mnemonic::Jmp)
}

/// Three NOPs, as many bytes as VMFUNC has.
fn three_nops() -> Form
    ensures { result ≡ Form.InPlace (spelled_bytes (nop ∷ nop ∷ nop ∷ [])) }
{
    let mut code = Code::of(&opcode_alone(0x90));
    code.put(&opcode_alone(0x90));
    code.put(&opcode_alone(0x90));
    Form::InPlace(code)
}

/// ADD ESP, EDX with reg as the destination, spelled `03 E2`.
fn add_to_reg() -> Form
    ensures { result ≡ Form.InPlace (spelled_bytes (add_from_rm ∷ [])) }
{
    Form::InPlace(Code::of(&Insn {
        modrm: Some(0xE2),
        ..opcode_alone(0x03)
    }))
}

/// The form of an instruction that holds the bytes of VMFUNC behind ModRM, by its immediate.
#[tactic(auto, using(crate::proofs::Lengths::op_4))]
fn form_by(instruction: Instruction, insn: &Insn, site: Site) -> Form
    requires site { IsSite site }
    requires lock { instruction.mnemonic ≡ Mnemonic.Imul → insn.now.lock ≡ false }
    requires main { has_memory insn.now.modrm ≡ true → length (op_bytes insn.now.op) + length (imm_bytes insn.now.imm) ≤ 5 }
    ensures table { result ≡ bytes_of (form_by instruction insn.now site insn.now.imm) }
    ensures small { IsSmall result }
{
    match insn.imm {
        Imm::I64(value) => wide_constant_slot(instruction, insn, site, value),
        Imm::I32(value) => {
            if !has_memory(insn.modrm) {
                constant_slot(instruction, insn, site, value)
            } else if number_holds_pattern(value) {
                address_and_constant_slot(instruction, insn, site, value)
            } else {
                address_slot(instruction, insn, site)
            }
        }
        Imm::None | Imm::I8(_) => address_slot(instruction, insn, site),
    }
}

/// The form of an instruction that holds the bytes of VMFUNC behind ModRM.
#[tactic(auto, unfolding(crate::specs::Table::slot_form))]
fn slot_form(instruction: Instruction, insn: &Insn, site: Site) -> Form
    requires site { IsSite site }
    requires lock { instruction.mnemonic ≡ Mnemonic.Imul → insn.now.lock ≡ false }
    requires main { has_memory insn.now.modrm ≡ true → length (op_bytes insn.now.op) + length (imm_bytes insn.now.imm) ≤ 5 }
    ensures table { result ≡ bytes_of (slot_form instruction insn.now site) }
    ensures small { IsSmall result }
{
    let memory = has_memory(insn.modrm);
    if memory && is_call(instruction.mnemonic) {
        Form::Unmovable
    } else if memory && is_jump(instruction.mnemonic) {
        jump_slot(instruction, insn, site)
    } else {
        form_by(instruction, insn, site)
    }
}

/// The form of an instruction that holds the bytes of VMFUNC behind ModRM, by what the opcode maps say of it.
#[tactic(auto, using(crate::proofs::Maps::imul_unlocked, crate::proofs::Maps::short_5))]
fn slot_form_of(insn: &Insn, site: Site) -> Form
    requires valid { IsValid insn.now }
    requires site { IsSite site }
    ensures table { result ≡ bytes_of (slot_form_of (instruction_of insn.now) insn.now site) }
    ensures small { IsSmall result }
{
    match instruction_of(insn) {
        None => Form::Unmovable,
        Some(instruction) => slot_form(instruction, insn, site),
    }
}

/// Whether SIB is 0F, and with base and index exchanged the instruction does not hold the bytes of VMFUNC.
#[tactic(auto, using(crate::proofs::Lengths::exchanged_short))]
fn is_exchangeable(insn: &Insn) -> bool
    requires { IsValid insn.now }
    ensures { result ≡ is_exchangeable insn.now }
{
    is_sib_0f(insn.sib) && !insn_holds_pattern(&sib_exchanged(insn))
}

/// The form of an instruction that holds the bytes of VMFUNC.
#[tactic(auto, using(crate::proofs::Lengths::displaced_9, crate::proofs::Lengths::exchanged_short), unfolding(crate::specs::Table::held_form))]
fn held_form(insn: &Insn, site: Site) -> Form
    requires valid { IsValid insn.now }
    requires site { IsSite site }
    ensures table { result ≡ bytes_of (held_form insn.now site) }
    ensures small { IsSmall result }
{
    if is_exchangeable(insn) {
        Form::InPlace(Code::of(&sib_exchanged(insn)))
    } else if begins_at_modrm(insn) {
        displaced(insn, site)
    } else {
        slot_form_of(insn, site)
    }
}

/// What the table gives, in place or in a slot of 74 bytes at most.
#[tactic(auto, unfolding(crate::specs::Table::form_of, crate::specs::Table::replacement))]
fn table_form(insn: &Insn, site: Site, after_0f: bool) -> Form
    requires valid { IsValid insn.now }
    requires site { IsSite site }
    ensures table { result ≡ bytes_of (replacement insn.now site after_0f) }
    ensures small { IsSmall result }
{
    if is_vmfunc(insn.op) {
        return three_nops();
    }
    if completes_pattern(insn, after_0f) {
        return add_to_reg();
    }
    if !insn_holds_pattern(insn) {
        return Form::Keep;
    }
    held_form(insn, site)
}

/// Where an instruction at an address goes on, and the slot that it would get.
#[tactic(auto, using(sb_insn::proofs::Longest::spelling_13))]
fn site_of(insn: &Insn, at: u64, slot: u64) -> Site
    requires valid { IsValid insn.now }
    requires at { IsInText at }
    requires slot { slot ≤ area_end }
    ensures value { result ≡ site_of insn.now at slot }
    ensures site { IsSite result }
{
    Site {
        next: at + insn.length() as u64,
        slot,
    }
}

/// What stands in place of an instruction.
///
/// The instruction stands at `at` in a text, `slot` is where its slot would stand in the rewrite area, and `after_0f` says
/// whether the byte before it in the text is 0F. The answer is the first case of the table that applies (docs/FORMS.md).
/// Direct jumps and calls that hold the bytes of VMFUNC have no form (`form_applies`).
#[tactic(auto, unfolding(crate::specs::Table::form_of), using(crate::proofs::Room::form_roomy))]
pub fn form(insn: &Insn, at: u64, slot: u64, after_0f: bool) -> Form
    requires valid { IsValid insn.now }
    requires taken { HasForm insn.now }
    requires at { IsInText at }
    requires slot { (AREA_ADDRESS ≤ slot) × (slot ≤ area_end) }
    ensures table { result ≡ form_of insn.now at slot after_0f }
    // In place stand as many bytes; one that is moved has room for a jump, and its slot is small.
    ensures room { HasRoom insn.now result }
    ensures no_pattern { IsCleanForm insn.now result }
{
    table_form(insn, site_of(insn, at, slot), after_0f)
}

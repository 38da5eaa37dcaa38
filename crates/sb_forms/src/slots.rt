//! The forms of a moved instruction.

ghost use Rattle.std.specs.Prelude.{◌≡◌, ◌+◌, ◌≤◌, [], ◌++◌, false, length};
ghost use Rattle.sb_insn.specs.declared.opcode_map.Mnemonic.{Mnemonic};
ghost use Rattle.sb_insn.specs.Spelling.{spelling, op_bytes, imm_bytes};
ghost use Rattle.sb_forms.specs.Answers.{IsSite, IsSmall};
ghost use Rattle.sb_forms.specs.Pieces.{jump_insn};
ghost use Rattle.sb_forms.specs.Mains.{with_displacement};
ghost use Rattle.sb_forms.specs.Table.{
  move_outcome,
  jump_form,
  wide_constant_form,
  address_and_constant_form,
  address_form,
  constant_form,
  bytes_of,
};

use crate::answer::Form;
use crate::code::Code;
use crate::helper::{first_helper, second_helper};
use crate::mains::{
    behind, load_target, load_word, on_memory, on_register, with_displacement, with_helper,
};
use crate::pieces::{
    FIRST_SAVED, SCRATCH_WORD, SECOND_SAVED, UPPER_HALF, high_half, jump, jump_through, low_half,
    put_address, put_constant, restore, save, save_half,
};
use sb_insn::{Insn, Instruction};

/// Where a moved instruction goes on, and where its slot stands.
#[derive(Clone, Copy, Debug)]
pub struct Site {
    /// The address of the next instruction.
    pub next: u64,
    /// The address of the slot.
    pub slot: u64,
}

/// The slot, which ends with a jump to the next instruction.
fn moved(site: Site, pre: Code, main: &Insn, mut post: Code) -> Form
    requires site { IsSite site }
    requires pre { length pre ≤ 50 }
    requires main { length (spelling main.now) ≤ 9 }
    requires post { length post ≤ 19 }
    requires slot { length pre + length (spelling main.now) + length post ≤ 69 }
    ensures moved { result
        ≡ Form.Moved pre (spelling main.now)
        (post ++ spelling (jump_insn (site.slot + length pre + length (spelling main.now) + length post) site.next)) }
    ensures small { IsSmall result }
{
    let main = Code::of(main);
    let from = site.slot + pre.len() as u64 + main.len() as u64 + post.len() as u64;
    post.put(&jump(from, site.next));
    Form::Moved { pre, main, post }
}

/// The instruction at ModRM 0F, with a displacement.
pub fn displaced(insn: &Insn, site: Site) -> Form
    requires site { IsSite site }
    requires main { length (spelling (with_displacement insn.now)) ≤ 9 }
    ensures table { result ≡ bytes_of (move_outcome site [] (with_displacement insn.now) []) }
    ensures small { IsSmall result }
{
    moved(site, Code::new(), &with_displacement(insn), Code::new())
}

/// JMP through memory: the target's address is loaded, and kept in the scratch page while the helper is restored.
pub fn jump_slot(instruction: Instruction, insn: &Insn, site: Site) -> Form
    requires { IsSite site }
    ensures table { result ≡ bytes_of (jump_form instruction insn.now site) }
    ensures small { IsSmall result }
{
    let helper = first_helper(instruction.form, insn);
    let mut pre = Code::of(&save(helper, FIRST_SAVED));
    put_address(&mut pre, helper, insn, site.next);
    let mut post = Code::of(&save(helper, SCRATCH_WORD));
    post.put(&restore(helper, FIRST_SAVED));
    post.put(&jump_through(SCRATCH_WORD));
    Form::Moved {
        pre,
        main: Code::of(&load_target(helper)),
        post,
    }
}

/// MOV of eight bytes to a register: by halves into the scratch page, and from there.
pub fn wide_constant_slot(instruction: Instruction, insn: &Insn, site: Site, value: i64) -> Form
    requires { IsSite site }
    ensures table { result ≡ bytes_of (wide_constant_form instruction insn.now site value) }
    ensures small { IsSmall result }
{
    let helper = first_helper(instruction.form, insn);
    let mut pre = Code::of(&save(helper, FIRST_SAVED));
    put_constant(&mut pre, helper, low_half(value));
    pre.put(&save_half(helper, SCRATCH_WORD));
    put_constant(&mut pre, helper, high_half(value));
    pre.put(&save_half(helper, UPPER_HALF));
    let post = Code::of(&restore(helper, FIRST_SAVED));
    moved(site, pre, &load_word(insn), post)
}

/// The operand's address in one helper, and the immediate in another.
pub fn address_and_constant_slot(
    instruction: Instruction,
    insn: &Insn,
    site: Site,
    value: i32,
) -> Form
    requires site { IsSite site }
    requires lock { instruction.mnemonic ≡ Mnemonic.Imul → insn.now.lock ≡ false }
    ensures table { result ≡ bytes_of (address_and_constant_form instruction insn.now site value) }
    ensures small { IsSmall result }
{
    let helper = first_helper(instruction.form, insn);
    let second = second_helper(instruction.form, insn);
    let mut pre = Code::of(&save(helper, FIRST_SAVED));
    pre.put(&save(second, SECOND_SAVED));
    put_address(&mut pre, helper, insn, site.next);
    put_constant(&mut pre, second, value);
    let main = on_memory(instruction.mnemonic, insn, helper, second);
    let mut post = behind(instruction.mnemonic, insn, second);
    post.put(&restore(helper, FIRST_SAVED));
    post.put(&restore(second, SECOND_SAVED));
    moved(site, pre, &main, post)
}

/// The operand's address in a helper.
pub fn address_slot(instruction: Instruction, insn: &Insn, site: Site) -> Form
    requires site { IsSite site }
    requires main { length (op_bytes insn.now.op) + length (imm_bytes insn.now.imm) ≤ 5 }
    ensures table { result ≡ bytes_of (address_form instruction insn.now site) }
    ensures small { IsSmall result }
{
    let helper = first_helper(instruction.form, insn);
    let mut pre = Code::of(&save(helper, FIRST_SAVED));
    put_address(&mut pre, helper, insn, site.next);
    let post = Code::of(&restore(helper, FIRST_SAVED));
    moved(site, pre, &with_helper(helper, insn), post)
}

/// The immediate in a helper.
pub fn constant_slot(instruction: Instruction, insn: &Insn, site: Site, value: i32) -> Form
    requires { IsSite site }
    ensures table { result ≡ bytes_of (constant_form instruction insn.now site value) }
    ensures small { IsSmall result }
{
    let helper = first_helper(instruction.form, insn);
    let mut pre = Code::of(&save(helper, FIRST_SAVED));
    put_constant(&mut pre, helper, value);
    let main = on_register(instruction.mnemonic, instruction.form, insn, helper);
    let mut post = behind(instruction.mnemonic, insn, helper);
    post.put(&restore(helper, FIRST_SAVED));
    moved(site, pre, &main, post)
}

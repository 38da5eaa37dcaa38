//! What a rewriter has made of the instructions before an address.

ghost use Rattle.std.specs.Prelude.{◌≡◌, ◌+◌, ◌-◌, ◌<◌, ◌≤◌, ◌++◌, IfOk, length, replicate};
ghost use Rattle.std.specs.List.{AllByRecursion};
ghost use Rattle.sb_insn.specs.Spelling.{spelling};
ghost use Rattle.sb_forms.specs.Pieces.{jump_insn};
ghost use Rattle.sb_forms.specs.Answers.{HasRoom, FitsSlot};
ghost use Rattle.sb_forms.specs.Answers.{area_end};
ghost use Rattle.sb_forms.specs.Places.{text_end};
ghost use Rattle.sb_rewrite.specs.Listing.{text_address};
ghost use Rattle.sb_rewrite.specs.Placing.{area_address};
ghost use Rattle.sb_rewrite.specs.Slots.{IsSpelled, IsSlotOf, HasSlot, AddsPasses, loads_constant, moved_slot, vmfunc_at};
ghost use Rattle.sb_rewrite.specs.RewrittenText.{IsOrdered, moved_edit};
ghost use Rattle.sb_rewrite.specs.Turns.{IsTextInsn, started, keep, moved, in_place, next_place, with_start, Puts};

use crate::edit::{Edit, Move};
use crate::passes::push_passes;
use crate::refusal::RewriteRefusal;
use crate::rewritten::Rewritten;
use crate::text_insn::TextInsn;
use sb_abi::{AREA_ADDRESS, AREA_PAGES, TEXT_ADDRESS};
use sb_forms::{Code, Form, jump_code};
use sb_insn::{Imm, Insn, Op};
use sb_memory::PAGE_SIZE;
use sb_slots::{Pass, Slot, Starts, TextMap};
use std::alloc::{AllocError, Global};
use std::marker::Model;

/// The number of bytes of the rewrite area.
pub const AREA_SIZE: usize = (AREA_PAGES * PAGE_SIZE) as usize;

/// What was made of the instructions so far: to contracts, bytes and lists.
#[derive(Debug, Drop)]
pub struct Draft {
    text: Vec<u8>,
    area: Vec<u8>,
    /// The starts of the instructions so far.
    starts: Starts,
    edits: Vec<Edit>,
    moves: Vec<Move>,
    slots: Vec<Slot>,
    passes: Vec<Pass>,
    vmfuncs: Vec<u64>,
}

impl Model for Draft {
    ghost use Rattle.std.specs.Prelude.{◌≤◌, length};
    ghost use Rattle.sb_rewrite.specs.declared.draft.TheConstants.{AREA_SIZE};
    ghost use Rattle.sb_rewrite.specs.RewrittenText.{RewrittenText};

    ghost Value = { RewrittenText };

    ghost view = { λ draft. record {
      text = draft.text.items;
      area = draft.area.items;
      starts = draft.starts;
      edits = draft.edits.items;
      moves = draft.moves.items;
      slots = draft.slots.items;
      passes = draft.passes.items;
      vmfuncs = draft.vmfuncs.items;
    } };

    ghost invariant = { λ draft. length draft.area.items ≤ AREA_SIZE };
}

/// Puts the jump to a slot into a text, and NOPs for the further bytes of the instruction.
fn put_jump(text: &mut Vec<u8>, from: u64, to: u64, length: usize) -> Result<(), AllocError>
    requires from { from ≤ text_end }
    requires to { to ≤ area_end }
    requires room { 5 ≤ length }
    ensures { IfOk result (λ done. text.new.items
        ≡ text.old.items ++ (spelling (jump_insn from to) ++ replicate (length - 5) 0x90)) }
{
    text.extend_from_slice(jump_code(from, to).bytes())?;
    put_nops(text, length - 5)
}

/// Puts NOPs into a text.
fn put_nops(text: &mut Vec<u8>, count: usize) -> Result<(), AllocError>
    ensures { IfOk result (λ done. text.new.items ≡ text.old.items ++ replicate count 0x90) }
{
    for _ in 0..count {
        text.push(0x90)?;
    }
    Ok(())
}

/// Puts a slot at an address behind the bytes of others, and records which of its instructions follow one another.
fn put_slot_code(
    area: &mut Vec<u8>,
    passes: &mut Vec<Pass>,
    slot: u64,
    pre: &Code,
    main: &Code,
    post: &Code,
) -> Result<(), AllocError>
    requires spelled { IsSpelled (pre.now ++ (main.now ++ post.now)) }
    requires at { slot ≤ area_end }
    requires room { FitsSlot pre.now main.now post.now }
    ensures bytes { IfOk result (λ done. area.new.items ≡ area.old.items ++ (pre.now ++ (main.now ++ post.now))) }
    ensures most { length area.new.items ≤ length area.old.items + length (pre.now ++ (main.now ++ post.now)) }
    ensures passes { IfOk result (λ done. AddsPasses slot (pre.now ++ (main.now ++ post.now)) passes.old.items passes.new.items) }
{
    let first = area.len();
    area.extend_from_slice(pre.bytes())?;
    area.extend_from_slice(main.bytes())?;
    area.extend_from_slice(post.bytes())?;
    push_passes(passes, slot, &area[first..])
}

/// The number of bytes of a slot.
fn slot_size(pre: &Code, main: &Code, post: &Code) -> usize
    requires { FitsSlot pre.now main.now post.now }
    ensures value { result ≡ length (pre.now ++ (main.now ++ post.now)) }
    ensures most { result ≤ 74 }
{
    pre.bytes().len() + main.bytes().len() + post.bytes().len()
}

/// The edit of an instruction that is moved to a slot with so many bytes.
fn moved_edit(text_insn: &TextInsn, slot: u64, size: usize) -> Edit
    requires text_insn { IsTextInsn text_insn.now }
    requires size { size ≤ 74 }
    ensures { result ≡ moved_edit text_insn.now.insn text_insn.now.at slot size }
{
    Edit {
        at: text_insn.at,
        old_len: text_insn.bytes.len() as u8,
        slot: Some((slot, size as u8)),
    }
}

/// The slot of a moved instruction, with so many bytes, and so many before main.
fn moved_slot(text_insn: &TextInsn, at: u64, before: usize, size: usize) -> Slot
    requires at { at ≤ area_end }
    requires size { size ≤ 74 }
    requires before { before ≤ size }
    ensures { result ≡ moved_slot text_insn.now.insn text_insn.now.at at before size }
{
    Slot {
        start: text_insn.at,
        at,
        main: at + before as u64,
        end: at + size as u64,
        loads_constant: loads_constant(text_insn.insn.imm),
    }
}

/// Whether a moved instruction's main loads the constant, which is one of eight bytes.
fn loads_constant(imm: Imm) -> bool
    ensures { result ≡ loads_constant imm }
{
    matches!(imm, Imm::I64(_))
}

/// Remembers the address of an instruction, if it is VMFUNC.
fn put_vmfunc(vmfuncs: &mut Vec<u64>, insn: &Insn, at: u64) -> Result<(), AllocError>
    ensures { IfOk result (λ done. vmfuncs.new.items ≡ vmfuncs.old.items ++ vmfunc_at insn.now at) }
{
    if insn.op == Op::Vmfunc {
        vmfuncs.push(at)?;
    }
    Ok(())
}

impl Draft {
    /// Nothing is made yet, with room for what is made of a text with so many bytes.
    pub fn with_room(alloc: Global, size: usize) -> Result<Draft, AllocError>
        ensures { IfOk result (λ draft. draft ≡ started) }
    {
        Ok(Draft {
            text: Vec::with_capacity(alloc, size)?,
            area: Vec::new(alloc),
            starts: Starts::with_room(alloc, size)?,
            edits: Vec::new(alloc),
            moves: Vec::new(alloc),
            slots: Vec::new(alloc),
            passes: Vec::new(alloc),
            vmfuncs: Vec::new(alloc),
        })
    }

    /// One more instruction starts at this address.
    #[inline(always)]
    pub fn start(&mut self, at: u64) -> Result<(), AllocError>
        requires address { text_address ≤ at }
        requires above { AllByRecursion (λ start. start < at) self.old.starts }
        ensures { IfOk result (λ done. self.new ≡ with_start self.old at) }
    {
        self.starts.push(at)
    }

    /// The starts of the instructions so far, in order.
    pub fn starts(&self) -> &Starts
        ensures { result.now ≡ self.now.starts }
    {
        &self.starts
    }

    /// The address at which the next slot begins.
    pub fn next_slot(&self) -> u64
        ensures address { result ≡ area_address + length self.now.area }
        ensures within { result ≤ area_end }
    {
        AREA_ADDRESS + self.area.len() as u64
    }

    /// Puts a slot into the area, and a jump to it into the text.
    fn put_slot(
        &mut self,
        text_insn: &TextInsn,
        pre: &Code,
        main: &Code,
        post: &Code,
    ) -> Result<(), RewriteRefusal>
        requires text_insn { IsTextInsn text_insn.now }
        requires jump { 5 ≤ length text_insn.now.bytes.now }
        requires room { FitsSlot pre.now main.now post.now }
        requires slot { IsSlotOf text_insn.now.insn text_insn.now.at (area_address + length self.old.area)
            (pre.now ++ (main.now ++ post.now)) }
        ensures { Puts self.old self.new
            (next_place self.old text_insn.now.insn text_insn.now.at (moved pre.now main.now post.now)) result }
    {
        let slot = self.next_slot();
        let before = pre.bytes().len();
        let size = slot_size(pre, main, post);
        if AREA_SIZE - self.area.len() < size {
            return Err(RewriteRefusal::AreaFull { at: text_insn.at });
        }
        put_jump(&mut self.text, text_insn.at, slot, text_insn.bytes.len())?;
        put_slot_code(&mut self.area, &mut self.passes, slot, pre, main, post)?;
        self.edits.push(moved_edit(text_insn, slot, size))?;
        self.moves.push(Move {
            start: text_insn.at,
            main: slot + before as u64,
        })?;
        self.slots.push(moved_slot(text_insn, slot, before, size))?;
        Ok(())
    }

    /// Puts bytes in place of an instruction that has as many.
    fn put_in_place(&mut self, text_insn: &TextInsn, code: &Code) -> Result<(), RewriteRefusal>
        requires { IsTextInsn text_insn.now }
        ensures { Puts self.old self.new (next_place self.old text_insn.now.insn text_insn.now.at (in_place code.now)) result }
    {
        self.text.extend_from_slice(code.bytes())?;
        self.edits.push(Edit {
            at: text_insn.at,
            old_len: text_insn.bytes.len() as u8,
            slot: None,
        })?;
        put_vmfunc(&mut self.vmfuncs, &text_insn.insn, text_insn.at)?;
        Ok(())
    }

    /// Puts an instruction itself.
    #[inline(always)]
    pub fn keep(&mut self, text_insn: &TextInsn) -> Result<(), RewriteRefusal>
        requires { IsTextInsn text_insn.now }
        ensures { Puts self.old self.new (next_place self.old text_insn.now.insn text_insn.now.at keep) result }
    {
        self.text.extend_from_slice(text_insn.bytes)?;
        Ok(())
    }

    /// Puts what stands in place of an instruction.
    ///
    /// # Errors
    ///
    /// `Unmovable` where nothing can; `AreaFull` where its slot would end behind the area.
    pub fn put(&mut self, text_insn: &TextInsn, form: &Form) -> Result<(), RewriteRefusal>
        requires text_insn { IsTextInsn text_insn.now }
        requires room { HasRoom text_insn.now.insn form.now }
        requires slot { HasSlot text_insn.now.insn text_insn.now.at (area_address + length self.old.area) form.now }
        ensures { Puts self.old self.new (next_place self.old text_insn.now.insn text_insn.now.at form.now) result }
    {
        match form {
            Form::Keep => self.keep(text_insn)?,
            Form::InPlace(code) => self.put_in_place(text_insn, code)?,
            Form::Moved { pre, main, post } => self.put_slot(text_insn, pre, main, post)?,
            Form::Unmovable => return Err(RewriteRefusal::Unmovable { at: text_insn.at }),
        }
        Ok(())
    }

    /// What was made, where it is all.
    pub fn finish(self) -> Rewritten
        requires { IsOrdered self }
        ensures { result ≡ self }
    {
        let size = self.text.len() as u64;
        let area_size = self.area.len() as u64;
        let map = TextMap::new(
            self.starts,
            size,
            area_size,
            self.slots,
            self.passes,
            self.vmfuncs,
        );
        Rewritten::new(self.text, self.area, self.edits, self.moves, map)
    }
}

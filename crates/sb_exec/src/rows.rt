//! The row of each action: what it loads and stores, the registers after it, and its effect.

ghost use Rattle.std.specs.Prelude.{◌≡◌};
ghost use Rattle.sb_exec.specs.Rows.{
  into_reg,
  after_action,
  destination_use,
  rm_use,
  load_by,
  store_by,
  load_source,
  load_of,
  store_below,
  store_of,
  effect_of,
};

use crate::action::{Action, Effect, Load, Location, MemoryUse, Store};
use crate::address::{operand_address, rm_location};
use crate::branch::{
    rsp_after_push, set_after_jcc, set_after_pop, set_after_pop_into, set_after_push, stack_top,
    target_of,
};
use crate::exchange::{set_exchange_after, stored_exchange_after};
use crate::operand::{next_rip, set_register};
use crate::write_back::{
    last_operand, rm_value, set_at_next, set_compute_result, stored_compute_result,
};
use sb_alu::{Operation, Size};
use sb_insn::{Insn, OperandForm, Regs, opcode_number, reg_number};
use sb_memory::Linear;

// ---- registers

/// Writes a value to the register that reg names, and sets RIP.
fn set_into_reg(size: Size, value: u64, insn: &Insn, regs: &mut Regs)
    ensures { regs.new ≡ (into_reg size value insn.now regs.old).regs }
{
    set_at_next(insn, regs);
    set_register(size, usize::from(reg_number(insn)), value, regs);
}

/// Sets the registers after an action that loaded this number.
#[tactic(auto, unfolding(crate::specs::Rows::after_action))]
pub fn set_after_action(action: Action, insn: &Insn, regs: &mut Regs, loaded: u64)
    ensures { regs.new ≡ (after_action action insn.now regs.old loaded).regs }
{
    match action {
        Action::Compute(operation, form, size) => {
            set_compute_result(operation, form, size, insn, regs, loaded);
        }
        Action::ZeroExtend(size) => {
            let value = rm_value(Size::Byte, insn, regs, loaded);
            set_into_reg(size, value, insn, regs);
        }
        Action::LoadAddress(size) => {
            let address = operand_address(insn, regs);
            set_into_reg(size, address, insn, regs);
        }
        Action::Exchange(kind, size) => set_exchange_after(kind, size, insn, regs, loaded),
        Action::Push(_) => {
            set_at_next(insn, regs);
            set_after_push(regs);
        }
        Action::Pop => {
            set_at_next(insn, regs);
            set_after_pop_into(usize::from(opcode_number(insn)), loaded, regs);
        }
        Action::Return => {
            set_after_pop(regs);
            regs.rip = loaded;
        }
        Action::Jump(form) => regs.rip = target_of(form, insn, regs, loaded),
        Action::JumpIf(number) => set_after_jcc(number, insn, regs),
        Action::Call(form) => {
            let target = target_of(form, insn, regs, loaded);
            set_after_push(regs);
            regs.rip = target;
        }
        Action::Pass => set_at_next(insn, regs),
        Action::Stop(_) => {}
    }
}

// ---- the number that is stored

/// The number that is stored by an action that loaded this number, 0 where none is.
#[tactic(auto, unfolding(crate::specs::Rows::after_action))]
pub fn stored_after_action(action: Action, insn: &Insn, regs: &Regs, loaded: u64) -> u64
    ensures { result ≡ (after_action action insn.now regs.now loaded).stored }
{
    match action {
        Action::Compute(operation, form, size) => stored_compute_result(
            operation, form, size, insn, regs, loaded,
        ),
        Action::Exchange(kind, size) => stored_exchange_after(kind, size, insn, regs, loaded),
        Action::Push(form) => last_operand(form, Size::Quadword, insn, regs, loaded),
        Action::Call(_) => next_rip(insn, regs),
        Action::ZeroExtend(_)
        | Action::LoadAddress(_)
        | Action::Pop
        | Action::Return
        | Action::Jump(_)
        | Action::JumpIf(_)
        | Action::Pass
        | Action::Stop(_) => 0,
    }
}

// ---- accesses

/// What is done to the destination: comparisons only read it, MOV only writes it.
fn destination_use(operation: Operation) -> MemoryUse
    ensures { result ≡ destination_use operation }
{
    match operation {
        Operation::Compare | Operation::Test => MemoryUse::Read,
        Operation::Move => MemoryUse::Write,
        Operation::Add
        | Operation::Or
        | Operation::And
        | Operation::Sub
        | Operation::Xor
        | Operation::Not
        | Operation::Negate
        | Operation::Increment
        | Operation::Decrement
        | Operation::Multiply
        | Operation::ShiftLeft
        | Operation::ShiftRight
        | Operation::ShiftArithmetic
        | Operation::ScanForward => MemoryUse::Update,
    }
}

/// What is done to the operand that mod and rm name: it is the destination, a source, or none.
#[tactic(auto, unfolding(crate::specs::Rows::rm_use))]
fn rm_use(form: OperandForm, usage: MemoryUse) -> MemoryUse
    ensures { result ≡ rm_use form usage }
{
    match form {
        OperandForm::RmReg
        | OperandForm::RmImm
        | OperandForm::RmCount
        | OperandForm::RmCl
        | OperandForm::Rm => usage,
        OperandForm::RegRm | OperandForm::RegRmImm => MemoryUse::Read,
        OperandForm::AccImm
        | OperandForm::OpcodeImm
        | OperandForm::Opcode
        | OperandForm::Imm
        | OperandForm::Relative
        | OperandForm::Nothing => MemoryUse::Nothing,
    }
}

/// What is loaded of an operand that is in memory.
fn load_by(usage: MemoryUse, size: Size, place: Location) -> Load
    ensures { result ≡ load_by usage size place }
{
    match place {
        Location::Register(_) => Load::Nothing,
        Location::Memory(at) => match usage {
            MemoryUse::Read => Load::Read(at, size),
            MemoryUse::Update => Load::ReadForWrite(at, size),
            MemoryUse::Write | MemoryUse::Nothing => Load::Nothing,
        },
    }
}

/// What is stored to an operand that is in memory.
fn store_by(usage: MemoryUse, size: Size, place: Location) -> Store
    ensures { result ≡ store_by usage size place }
{
    match place {
        Location::Register(_) => Store::Nothing,
        Location::Memory(at) => match usage {
            MemoryUse::Update | MemoryUse::Write => Store::At(at, size),
            MemoryUse::Read | MemoryUse::Nothing => Store::Nothing,
        },
    }
}

/// What is pushed or jumped to is loaded, if it is in memory.
fn load_source(form: OperandForm, insn: &Insn, regs: &Regs) -> Load
    ensures { result ≡ load_source form insn.now regs.now }
{
    load_by(
        rm_use(form, MemoryUse::Read),
        Size::Quadword,
        rm_location(insn, regs),
    )
}

/// What an action loads.
#[tactic(auto, unfolding(crate::specs::Rows::load_of))]
pub fn load_of(action: Action, insn: &Insn, regs: &Regs) -> Load
    ensures { result ≡ load_of action insn.now regs.now }
{
    match action {
        Action::Compute(operation, form, size) => load_by(
            rm_use(form, destination_use(operation)),
            size,
            rm_location(insn, regs),
        ),
        Action::ZeroExtend(_) => load_by(MemoryUse::Read, Size::Byte, rm_location(insn, regs)),
        Action::Exchange(_, size) => load_by(MemoryUse::Update, size, rm_location(insn, regs)),
        Action::Push(form) | Action::Jump(form) | Action::Call(form) => load_source(
            form, insn, regs,
        ),
        Action::Pop | Action::Return => Load::Read(Linear(stack_top(regs)), Size::Quadword),
        Action::LoadAddress(_) | Action::JumpIf(_) | Action::Pass | Action::Stop(_) =>
            Load::Nothing,
    }
}

/// 8 bytes are stored below the top of the stack.
fn store_below(regs: &Regs) -> Store
    ensures { result ≡ store_below regs.now }
{
    Store::At(Linear(rsp_after_push(regs)), Size::Quadword)
}

/// What an action stores.
#[tactic(auto, unfolding(crate::specs::Rows::store_of))]
pub fn store_of(action: Action, insn: &Insn, regs: &Regs) -> Store
    ensures { result ≡ store_of action insn.now regs.now }
{
    match action {
        Action::Compute(operation, form, size) => store_by(
            rm_use(form, destination_use(operation)),
            size,
            rm_location(insn, regs),
        ),
        Action::Exchange(_, size) => store_by(MemoryUse::Update, size, rm_location(insn, regs)),
        Action::Push(_) | Action::Call(_) => store_below(regs),
        Action::ZeroExtend(_)
        | Action::LoadAddress(_)
        | Action::Pop
        | Action::Return
        | Action::Jump(_)
        | Action::JumpIf(_)
        | Action::Pass
        | Action::Stop(_) => Store::Nothing,
    }
}

/// What follows an action.
#[tactic(auto, unfolding(crate::specs::Rows::effect_of))]
pub fn effect_of(action: Action) -> Effect
    ensures { result ≡ effect_of action }
{
    match action {
        Action::Stop(effect) => effect,
        Action::Compute(_, _, _)
        | Action::ZeroExtend(_)
        | Action::LoadAddress(_)
        | Action::Exchange(_, _)
        | Action::Push(_)
        | Action::Pop
        | Action::Return
        | Action::Jump(_)
        | Action::JumpIf(_)
        | Action::Call(_)
        | Action::Pass => Effect::Next,
    }
}

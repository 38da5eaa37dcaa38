//! The instructions that write rm and another operand. `old` is what rm holds, `source` what reg holds.

ghost use Rattle.std.specs.Prelude.{◌≡◌, ◌<◌};
ghost use Rattle.sb_alu.specs.Size.{modulus};
ghost use Rattle.sb_exec.specs.Operand.{IsPlace};
ghost use Rattle.sb_exec.specs.Exchange.{
  xchg_result,
  xadd_result,
  cmpxchg_result,
  number_for_rm,
  exchange_of,
  exchange_after,
};

use crate::action::{Exchange, Location};
use crate::address::rm_location;
use crate::operand::{register_value, set_register};
use crate::write_back::{rm_value, set_at_next, set_place, stored_in};
use sb_alu::{Size, difference_outcome, sum_of, sum_outcome};
use sb_insn::registers::RAX;
use sb_insn::{Insn, Regs, reg_number};

// ---- registers

/// reg gets what rm held, and then rm the new value, where it is a register.
fn set_xchg_result(
    size: Size,
    number: usize,
    place: Location,
    old: u64,
    value: u64,
    regs: &mut Regs,
)
    requires number { number < 16 }
    requires place { IsPlace place }
    ensures { regs.new ≡ (xchg_result size number place old value regs.old).regs }
{
    set_register(size, number, old, regs);
    set_place(size, place, value, regs);
}

/// XADD: the new value is the sum.
fn set_xadd_result(
    size: Size,
    number: usize,
    place: Location,
    old: u64,
    source: u64,
    regs: &mut Regs,
)
    requires number { number < 16 }
    requires place { IsPlace place }
    requires old { old < modulus size }
    requires source { source < modulus size }
    ensures { regs.new ≡ (xadd_result size number place old source regs.old).regs }
{
    regs.flags = sum_outcome(size, old, source).flags;
    set_xchg_result(size, number, place, old, sum_of(size, old, source), regs);
}

/// CMPXCHG: rm gets the new value where it equals the accumulator, which gets what rm held otherwise.
#[tactic(auto, using(crate::proofs::StoredNumber::unequal_regs))]
fn set_cmpxchg_result(size: Size, place: Location, old: u64, source: u64, regs: &mut Regs)
    requires place { IsPlace place }
    requires old { old < modulus size }
    ensures { regs.new ≡ (cmpxchg_result size place old source regs.old).regs }
{
    let accumulator = register_value(size, RAX, regs);
    regs.flags = difference_outcome(size, accumulator, old).flags;
    if accumulator == old {
        set_place(size, place, source, regs);
    } else {
        set_register(size, RAX, old, regs);
    }
}

#[tactic(auto, unfolding(crate::specs::Exchange::exchange_of))]
fn set_exchange(
    kind: Exchange,
    size: Size,
    number: usize,
    place: Location,
    old: u64,
    source: u64,
    regs: &mut Regs,
)
    requires number { number < 16 }
    requires place { IsPlace place }
    requires old { old < modulus size }
    requires source { source < modulus size }
    ensures { regs.new ≡ (exchange_of kind size number place old source regs.old).regs }
{
    match kind {
        Exchange::Xchg => set_xchg_result(size, number, place, old, source, regs),
        Exchange::Xadd => set_xadd_result(size, number, place, old, source, regs),
        Exchange::Cmpxchg => set_cmpxchg_result(size, place, old, source, regs),
    }
}

/// Sets the registers after the exchange of an instruction's operands.
pub fn set_exchange_after(kind: Exchange, size: Size, insn: &Insn, regs: &mut Regs, loaded: u64)
    ensures { regs.new ≡ (exchange_after kind size insn.now regs.old loaded).regs }
{
    let number = usize::from(reg_number(insn));
    let place = rm_location(insn, regs);
    let old = rm_value(size, insn, regs, loaded);
    let source = register_value(size, number, regs);
    set_at_next(insn, regs);
    set_exchange(kind, size, number, place, old, source, regs);
}

// ---- the number that is stored

/// The number that rm gets.
fn number_for_rm(kind: Exchange, size: Size, old: u64, source: u64, accumulator: u64) -> u64
    requires old { old < modulus size }
    requires source { source < modulus size }
    ensures { result ≡ number_for_rm kind size old source accumulator }
{
    match kind {
        Exchange::Xchg => source,
        Exchange::Xadd => sum_of(size, old, source),
        Exchange::Cmpxchg => { if accumulator == old { source } else { old } }
    }
}

/// The number that is stored by the exchange of an instruction's operands.
#[tactic(auto, using(crate::proofs::StoredNumber::exchange_stored))]
pub fn stored_exchange_after(
    kind: Exchange,
    size: Size,
    insn: &Insn,
    regs: &Regs,
    loaded: u64,
) -> u64
    ensures { result ≡ (exchange_after kind size insn.now regs.now loaded).stored }
{
    let old = rm_value(size, insn, regs, loaded);
    let source = register_value(size, usize::from(reg_number(insn)), regs);
    let accumulator = register_value(size, RAX, regs);
    let number = number_for_rm(kind, size, old, source, accumulator);
    stored_in(rm_location(insn, regs), number)
}

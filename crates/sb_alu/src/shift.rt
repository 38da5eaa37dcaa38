//! Shifts of numbers of a size.

ghost use Rattle.std.specs.Prelude.{◌≡◌, ◌<◌, Some};
ghost use Rattle.sb_alu.specs.Size.{modulus, size_bits};
ghost use Rattle.sb_alu.specs.Shift.{
  shift_count,
  is_bit_set,
  shl,
  shl_outcome,
  shr_outcome,
  sar,
  sar_outcome,
  unless_zero,
};

use crate::arithmetic::{is_negative, result_flags};
use crate::operation::OperationOutcome;
use crate::size::Size;
use sb_insn::Flags;

/// The count modulo the number of bits.
fn shift_count(size: Size, count: u64) -> u32
    ensures value { result ≡ shift_count size count }
    ensures range { result < size_bits size }
{
    (count % u64::from(size.bits())) as u32
}

fn is_bit_set(value: u64, place: u32) -> bool
    requires { place < 64 }
    ensures { result ≡ is_bit_set value place }
{
    (value >> place) % 2 == 1
}

// ---- by a count that is not 0

fn shl(size: Size, value: u64, count: u32) -> u64
    requires value { value < modulus size }
    requires count { count < size_bits size }
    ensures { result ≡ shl size value count }
{
    match size {
        Size::Byte => (value << count) % 0x100,
        Size::Doubleword => (value << count) % 0x1_0000_0000,
        Size::Quadword => value << count,
    }
}

#[tactic(auto, unfolding(crate::specs::Shift::shl_outcome))]
fn shl_outcome(size: Size, value: u64, count: u32) -> OperationOutcome
    requires value { value < modulus size }
    requires count { count < size_bits size }
    requires some { 0 < count }
    ensures { result ≡ shl_outcome size value count }
{
    let shifted = shl(size, value, count);
    let last = is_bit_set(value, size.bits() - count);
    let overflow = count == 1 && is_negative(size, shifted) != last;
    OperationOutcome {
        value: Some(shifted),
        flags: result_flags(size, shifted, last, overflow),
    }
}

#[tactic(auto, unfolding(crate::specs::Shift::shr_outcome))]
fn shr_outcome(size: Size, value: u64, count: u32) -> OperationOutcome
    requires value { value < modulus size }
    requires count { count < size_bits size }
    requires some { 0 < count }
    ensures { result ≡ shr_outcome size value count }
{
    let shifted = value >> count;
    let overflow = count == 1 && is_negative(size, value);
    OperationOutcome {
        value: Some(shifted),
        flags: result_flags(size, shifted, is_bit_set(value, count - 1), overflow),
    }
}

fn sar(size: Size, value: u64, count: u32) -> u64
    requires value { value < modulus size }
    requires count { count < size_bits size }
    ensures { result ≡ sar size value count }
{
    match size {
        Size::Byte => u64::from(((value as u8).cast_signed() >> count).cast_unsigned()),
        Size::Doubleword => u64::from(((value as u32).cast_signed() >> count).cast_unsigned()),
        Size::Quadword => (value.cast_signed() >> count).cast_unsigned(),
    }
}

#[tactic(auto, unfolding(crate::specs::Shift::sar_outcome))]
fn sar_outcome(size: Size, value: u64, count: u32) -> OperationOutcome
    requires value { value < modulus size }
    requires count { count < size_bits size }
    requires some { 0 < count }
    ensures { result ≡ sar_outcome size value count }
{
    let shifted = sar(size, value, count);
    OperationOutcome {
        value: Some(shifted),
        flags: result_flags(size, shifted, is_bit_set(value, count - 1), false),
    }
}

// ---- by any count

/// A shift by 0 gives its operand and leaves the flags.
fn unshifted(value: u64, flags: Flags) -> OperationOutcome
    ensures value { result.value ≡ Some value }
    ensures flags { result.flags ≡ flags }
{
    OperationOutcome {
        value: Some(value),
        flags,
    }
}

/// SHL.
pub fn shl_by(size: Size, value: u64, count: u64, flags: Flags) -> OperationOutcome
    requires { value < modulus size }
    ensures { result ≡ unless_zero (shift_count size count) value flags (shl_outcome size value (shift_count size count)) }
{
    match shift_count(size, count) {
        0 => unshifted(value, flags),
        count => shl_outcome(size, value, count),
    }
}

/// SHR.
pub fn shr_by(size: Size, value: u64, count: u64, flags: Flags) -> OperationOutcome
    requires { value < modulus size }
    ensures { result ≡ unless_zero (shift_count size count) value flags (shr_outcome size value (shift_count size count)) }
{
    match shift_count(size, count) {
        0 => unshifted(value, flags),
        count => shr_outcome(size, value, count),
    }
}

/// SAR.
pub fn sar_by(size: Size, value: u64, count: u64, flags: Flags) -> OperationOutcome
    requires { value < modulus size }
    ensures { result ≡ unless_zero (shift_count size count) value flags (sar_outcome size value (shift_count size count)) }
{
    match shift_count(size, count) {
        0 => unshifted(value, flags),
        count => sar_outcome(size, value, count),
    }
}

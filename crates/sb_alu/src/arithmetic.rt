//! Sums, differences, products and logic over numbers of a size.

ghost use Rattle.std.specs.Prelude.{◌≡◌, ◌<◌, ◌+◌, ◌*◌, ◌%◌, nat_le};
ghost use Rattle.sb_alu.specs.Size.{modulus};
ghost use Rattle.sb_alu.specs.Arithmetic.{
  is_negative,
  result_flags,
  sum_of,
  sum_overflows,
  sum_outcome,
  difference_of,
  difference_overflows,
  difference_outcome,
  logic_outcome,
  product_overflows,
  product_outcome,
};

use crate::operation::OperationOutcome;
use crate::size::Size;
use sb_insn::Flags;

/// Whether the top bit is set.
pub fn is_negative(size: Size, value: u64) -> bool
    ensures { result ≡ is_negative size value }
{
    value >= size.half()
}

/// The flags of a result.
#[tactic(auto, unfolding(crate::specs::Arithmetic::result_flags))]
pub fn result_flags(size: Size, value: u64, carry: bool, overflow: bool) -> Flags
    ensures { result ≡ result_flags size value carry overflow }
{
    Flags {
        cf: carry,
        pf: (value % 256).count_ones() % 2 == 0,
        zf: value == 0,
        sf: is_negative(size, value),
        of: overflow,
    }
}

// ---- sums

/// The lowest bits of a sum.
pub fn sum_of(size: Size, first: u64, second: u64) -> u64
    requires first { first < modulus size }
    requires second { second < modulus size }
    ensures { result ≡ sum_of size first second }
{
    match size {
        Size::Byte => (first + second) % 0x100,
        Size::Doubleword => (first + second) % 0x1_0000_0000,
        Size::Quadword => first.wrapping_add(second),
    }
}

/// Whether a sum has more bits than its size.
fn carries(size: Size, first: u64, second: u64) -> bool
    requires first { first < modulus size }
    requires second { second < modulus size }
    ensures { result ≡ nat_le (modulus size) (first + second) }
{
    match size {
        Size::Byte => first + second >= 0x100,
        Size::Doubleword => first + second >= 0x1_0000_0000,
        Size::Quadword => first.overflowing_add(second).1,
    }
}

/// Whether a signed sum does not fit.
fn sum_overflows(size: Size, first: u64, second: u64) -> bool
    requires first { first < modulus size }
    requires second { second < modulus size }
    ensures { result ≡ sum_overflows size first second }
{
    match size {
        Size::Byte => (first as u8)
            .cast_signed()
            .overflowing_add((second as u8).cast_signed())
            .1,
        Size::Doubleword => (first as u32)
            .cast_signed()
            .overflowing_add((second as u32).cast_signed())
            .1,
        Size::Quadword => first.cast_signed().overflowing_add(second.cast_signed()).1,
    }
}

/// A sum, with its flags.
#[tactic(auto, unfolding(crate::specs::Arithmetic::sum_outcome))]
pub fn sum_outcome(size: Size, first: u64, second: u64) -> OperationOutcome
    requires first { first < modulus size }
    requires second { second < modulus size }
    ensures { result ≡ sum_outcome size first second }
{
    let value = sum_of(size, first, second);
    let carry = carries(size, first, second);
    let overflow = sum_overflows(size, first, second);
    OperationOutcome {
        value: Some(value),
        flags: result_flags(size, value, carry, overflow),
    }
}

// ---- differences

/// The lowest bits of a difference.
fn difference_of(size: Size, first: u64, second: u64) -> u64
    requires first { first < modulus size }
    requires second { second < modulus size }
    ensures { result ≡ difference_of size first second }
{
    match size {
        Size::Byte => (first + (0x100 - second)) % 0x100,
        Size::Doubleword => (first + (0x1_0000_0000 - second)) % 0x1_0000_0000,
        Size::Quadword => first.wrapping_sub(second),
    }
}

/// Whether a signed difference does not fit.
fn difference_overflows(size: Size, first: u64, second: u64) -> bool
    requires first { first < modulus size }
    requires second { second < modulus size }
    ensures { result ≡ difference_overflows size first second }
{
    match size {
        Size::Byte => (first as u8)
            .cast_signed()
            .overflowing_sub((second as u8).cast_signed())
            .1,
        Size::Doubleword => (first as u32)
            .cast_signed()
            .overflowing_sub((second as u32).cast_signed())
            .1,
        Size::Quadword => first.cast_signed().overflowing_sub(second.cast_signed()).1,
    }
}

/// A difference, with its flags.
#[tactic(auto, unfolding(crate::specs::Arithmetic::difference_outcome))]
pub fn difference_outcome(size: Size, first: u64, second: u64) -> OperationOutcome
    requires first { first < modulus size }
    requires second { second < modulus size }
    ensures { result ≡ difference_outcome size first second }
{
    let value = difference_of(size, first, second);
    let overflow = difference_overflows(size, first, second);
    OperationOutcome {
        value: Some(value),
        flags: result_flags(size, value, first < second, overflow),
    }
}

// ---- logic

/// A logical operation's result, which clears CF and OF.
#[tactic(auto, unfolding(crate::specs::Arithmetic::logic_outcome))]
pub fn logic_outcome(size: Size, value: u64) -> OperationOutcome
    ensures { result ≡ logic_outcome size value }
{
    OperationOutcome {
        value: Some(value),
        flags: result_flags(size, value, false, false),
    }
}

// ---- products

/// The lowest bits of a product.
fn product(size: Size, first: u64, second: u64) -> u64
    requires first { first < modulus size }
    requires second { second < modulus size }
    ensures { result ≡ first * second % modulus size }
{
    match size {
        Size::Byte => first * second % 0x100,
        Size::Doubleword => first * second % 0x1_0000_0000,
        Size::Quadword => first.wrapping_mul(second),
    }
}

/// Whether a signed product does not fit.
fn product_overflows(size: Size, first: u64, second: u64) -> bool
    requires first { first < modulus size }
    requires second { second < modulus size }
    ensures { result ≡ product_overflows size first second }
{
    match size {
        Size::Byte => (first as u8)
            .cast_signed()
            .overflowing_mul((second as u8).cast_signed())
            .1,
        Size::Doubleword => (first as u32)
            .cast_signed()
            .overflowing_mul((second as u32).cast_signed())
            .1,
        Size::Quadword => first.cast_signed().overflowing_mul(second.cast_signed()).1,
    }
}

/// A signed product, with the flags that it changes.
#[tactic(auto, unfolding(crate::specs::Arithmetic::product_outcome))]
pub fn product_outcome(size: Size, first: u64, second: u64, flags: Flags) -> OperationOutcome
    requires first { first < modulus size }
    requires second { second < modulus size }
    ensures { result ≡ product_outcome size first second flags }
{
    let value = product(size, first, second);
    let lost = product_overflows(size, first, second);
    OperationOutcome {
        value: Some(value),
        flags: Flags {
            cf: lost,
            of: lost,
            sf: is_negative(size, value),
            ..flags
        },
    }
}

//! The addresses at which the instructions of a text start.

ghost use Rattle.std.specs.Prelude.{◌≡◌, ◌↔◌, ◌<◌, ◌≤◌, [], ◌∷◌, ◌++◌, IfOk, IsTrue, Contains, length};
ghost use Rattle.std.specs.List.{AllByRecursion};
ghost use Rattle.sb_abi.specs.declared.space.TheConstants.{TEXT_ADDRESS};
ghost use Rattle.sb_list.specs.Lists.{is_listed};
ghost use Rattle.sb_slots.specs.StartBits.{word_index, has_bit, KeepsBits, SetsBit};

use sb_abi::TEXT_ADDRESS;
use std::alloc::{AllocError, Global};
use std::marker::Model;

/// Addresses of a text at which instructions start, in order: to contracts, their list. Each address of the text has a bit.
#[derive(Debug, Drop)]
pub struct Starts {
    bits: Vec<u64>,
}

impl Model for Starts {
    ghost use Rattle.std.specs.Prelude.{ℕ, List};
    ghost use Rattle.sb_slots.specs.StartBits.{addresses_of};

    ghost Value = { List ℕ };

    ghost view = { λ starts. addresses_of starts.bits.items };
}

/// Whether the bit of the address is set.
#[inline(always)]
fn has_bit(words: &[u64], at: u64) -> bool
    ensures { result ≡ has_bit words.now at }
{
    if at < TEXT_ADDRESS {
        return false;
    }
    let place = at - TEXT_ADDRESS;
    match words.get((place / 64) as usize) {
        None => false,
        Some(word) => (*word >> (place % 64)) % 2 == 1,
    }
}

/// Makes room for the bit of the address.
#[inline(always)]
fn make_room(words: &mut Vec<u64>, at: u64) -> Result<(), AllocError>
    requires { TEXT_ADDRESS ≤ at }
    ensures kept { KeepsBits words.old.items words.new.items }
    ensures room { IfOk result (λ done. word_index at < length words.new.items) }
{
    let count = ((at - TEXT_ADDRESS) / 64) as usize + 1;
    if count <= words.len() {
        return Ok(());
    }
    words.resize(count, 0)
}

/// Sets the bit of the address.
#[inline(always)]
fn set_bit(words: &mut Vec<u64>, at: u64)
    requires address { TEXT_ADDRESS ≤ at }
    requires room { word_index at < length words.old.items }
    ensures { SetsBit at words.old.items words.new.items }
{
    let place = at - TEXT_ADDRESS;
    let index = (place / 64) as usize;
    words[index] = words[index] | 1 << (place % 64);
}

impl Starts {
    /// None yet, with room for those of a text with so many bytes.
    pub fn with_room(alloc: Global, size: usize) -> Result<Starts, AllocError>
        ensures { IfOk result (λ starts. starts ≡ []) }
    {
        Ok(Starts {
            bits: Vec::with_capacity(alloc, size / 64 + 1)?,
        })
    }

    /// Puts one more, which is above those that are there.
    #[inline(always)]
    pub fn push(&mut self, at: u64) -> Result<(), AllocError>
        requires address { TEXT_ADDRESS ≤ at }
        requires above { AllByRecursion (λ start. start < at) self.old }
        ensures { IfOk result (λ done. self.new ≡ self.old ++ at ∷ []) }
    {
        make_room(&mut self.bits, at)?;
        set_bit(&mut self.bits, at);
        Ok(())
    }

    /// Whether the address is one of them.
    #[inline(always)]
    pub fn contains(&self, at: u64) -> bool
        ensures listed { result ≡ is_listed self.now at }
        ensures held { IsTrue result ↔ Contains self.now at }
    {
        has_bit(&self.bits, at)
    }

    /// The same addresses in memory of their own.
    pub fn copied(&self, alloc: Global) -> Result<Starts, AllocError>
        ensures { IfOk result (λ copy. copy ≡ self.now) }
    {
        Ok(Starts {
            bits: Vec::from_slice(alloc, &self.bits)?,
        })
    }
}

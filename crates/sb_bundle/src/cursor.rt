//! Takes field after field off the front of an input, and knows the offset of each.

ghost use Rattle.std.specs.Prelude.{◌≡◌, ◌==◌, length, IfOk};
ghost use Rattle.sb_bundle.specs.Fields.{Gives, GivesBy, bytes_field, number, offset};

use crate::refusal::BundleRefusal;
use byteorder::{ByteOrder, LittleEndian};
use std::marker::Model;

/// What is left of an input of `total` bytes.
#[derive(Drop)]
pub(crate) struct Cursor<'a> {
    total: u64,
    rest: &'a [u8],
}

impl<'a> Model for Cursor<'a> {
    ghost use Rattle.std.specs.Prelude.{length, ◌≤◌};
    ghost use Rattle.sb_bundle.specs.Fields.{Input};

    ghost Value = { Input };

    ghost view = { λ cursor. record { total = cursor.total; rest = cursor.rest.now } };

    ghost invariant = { λ cursor. length cursor.rest.now ≤ cursor.total };
}

impl<'a> Cursor<'a> {
    /// The whole input.
    pub(crate) fn new(bytes: &'a [u8]) -> Cursor<'a>
        ensures { result ≡ record { total = length bytes.now; rest = bytes.now } }
    {
        Cursor {
            total: bytes.len() as u64,
            rest: bytes,
        }
    }

    /// Where the next field begins.
    pub(crate) fn offset(&self) -> u64
        ensures { result ≡ offset self.now }
    {
        self.total - self.rest.len() as u64
    }

    /// The next field, of `size` bytes.
    #[tactic(auto, unfolding(crate::specs::Fields::bytes_field))]
    pub(crate) fn bytes(&mut self, size: usize) -> Result<&'a [u8], BundleRefusal>
        ensures field { GivesBy (λ bytes. bytes.now) result self.new (bytes_field size self.old) }
        ensures whole { IfOk result (λ bytes. length bytes.now ≡ size) }
    {
        if self.rest.len() < size {
            return Err(BundleRefusal::Short { at: self.offset() });
        }
        let (field, rest) = self.rest.split_at(size);
        self.rest = rest;
        Ok(field)
    }

    /// The next field, a number of one byte.
    #[tactic(auto, unfolding(crate::specs::Fields::number))]
    pub(crate) fn number8(&mut self) -> Result<u8, BundleRefusal>
        ensures { Gives result self.new (number 1 self.old) }
    {
        let bytes = self.bytes(1)?;
        Ok(bytes[0])
    }

    /// The next field, a number of two bytes.
    #[tactic(auto, unfolding(crate::specs::Fields::number))]
    pub(crate) fn number16(&mut self) -> Result<u16, BundleRefusal>
        ensures { Gives result self.new (number 2 self.old) }
    {
        let bytes = self.bytes(2)?;
        Ok(LittleEndian::read_u16(bytes))
    }

    /// The next field, a number of four bytes.
    #[tactic(auto, unfolding(crate::specs::Fields::number))]
    pub(crate) fn number32(&mut self) -> Result<u32, BundleRefusal>
        ensures { Gives result self.new (number 4 self.old) }
    {
        let bytes = self.bytes(4)?;
        Ok(LittleEndian::read_u32(bytes))
    }

    /// The next field, a number of eight bytes.
    #[tactic(auto, unfolding(crate::specs::Fields::number))]
    pub(crate) fn number64(&mut self) -> Result<u64, BundleRefusal>
        ensures { Gives result self.new (number 8 self.old) }
    {
        let bytes = self.bytes(8)?;
        Ok(LittleEndian::read_u64(bytes))
    }

    /// Are no bytes left?
    pub(crate) fn is_at_end(&self) -> bool
        ensures { result ≡ (length self.now.rest == 0) }
    {
        self.rest.is_empty()
    }
}

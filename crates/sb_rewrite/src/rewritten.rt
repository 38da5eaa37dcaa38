//! A text that was rewritten.

ghost use Rattle.std.specs.Prelude.{◌≡◌, ◌↔◌, IsTrue, Contains, List, ℕ, length};
ghost use Rattle.sb_rewrite.specs.RewrittenText.{IsOrdered, IsMoved, IsInPlace, IsMovedTo, IsOriginal, text_from_parts, map_of};
ghost use Rattle.sb_slots.specs.Marks.{mark};

use crate::edit::{Edit, Edits, Move};
use sb_slots::{Mark, Slot, Starts, TextMap};
use std::marker::Model;

/// A text that was rewritten, and its rewrite area: to contracts, bytes and lists.
#[derive(Debug, Drop)]
pub struct Rewritten {
    text: Vec<u8>,
    area: Vec<u8>,
    edits: Edits,
    moves: Vec<Move>,
    map: TextMap,
}

impl Model for Rewritten {
    ghost use Rattle.std.specs.Prelude.{◌≡◌, length};
    ghost use Rattle.sb_rewrite.specs.RewrittenText.{RewrittenText, IsOrdered};

    ghost Value = { RewrittenText };

    ghost view = { λ made. record {
      text = made.text.items;
      area = made.area.items;
      starts = made.map.starts;
      edits = made.edits;
      moves = made.moves.items;
      slots = made.map.slots;
      passes = made.map.passes;
      vmfuncs = made.map.vmfuncs;
    } };

    ghost invariant = { λ made. IsOrdered (record {
      text = made.text.items;
      area = made.area.items;
      starts = made.map.starts;
      edits = made.edits;
      moves = made.moves.items;
      slots = made.map.slots;
      passes = made.map.passes;
      vmfuncs = made.map.vmfuncs;
    })
        × (made.map.size ≡ length made.text.items) × (made.map.area_size ≡ length made.area.items) };
}

impl Rewritten {
    /// Takes over what was made.
    pub(crate) fn new(
        text: Vec<u8>,
        area: Vec<u8>,
        edits: Vec<Edit>,
        moves: Vec<Move>,
        map: TextMap,
    ) -> Rewritten
        requires ordered { IsOrdered (text_from_parts text.items area.items map.starts edits.items moves.items map.slots map.passes
            map.vmfuncs) }
        requires text { map.size ≡ length text.items }
        requires area { map.area_size ≡ length area.items }
        ensures { result ≡ text_from_parts text.items area.items map.starts edits.items moves.items map.slots map.passes
            map.vmfuncs }
    {
        Rewritten {
            text,
            area,
            edits: Edits::new(edits),
            moves,
            map,
        }
    }

    /// The bytes of the text, which stands where the old one stood and is as long.
    pub fn text(&self) -> &[u8]
        ensures { result.now ≡ self.now.text }
    {
        &self.text
    }

    /// The bytes of the rewrite area, from its first address on, as far as there are slots.
    pub fn area(&self) -> &[u8]
        ensures { result.now ≡ self.now.area }
    {
        &self.area
    }

    /// The addresses at which the instructions of the old text start, in order.
    pub fn starts(&self) -> &Starts
        ensures { result.now ≡ self.now.starts }
    {
        self.map.starts()
    }

    /// The starts at which the text has other bytes than before, in order.
    pub fn edits(&self) -> &Edits
        ensures { result.now ≡ self.now.edits }
    {
        &self.edits
    }

    /// Where the instructions of the old text start, and what stands in place of those that were replaced.
    pub fn map(&self) -> &TextMap
        ensures { result.now ≡ map_of self.now }
    {
        &self.map
    }

    /// The slots of the moved instructions, in the order of these.
    pub fn slots(&self) -> &[Slot]
        ensures { result.now ≡ self.now.slots }
    {
        self.map.slots()
    }

    /// What the step of an instruction at the address is to the old text, where RIP is `next` after it, and `scratch` says
    /// whether it accessed the scratch page (docs/MARKS.md).
    pub fn mark(&self, at: u64, next: u64, scratch: bool) -> Mark
        ensures { result ≡ mark (map_of self.now) at next scratch }
    {
        self.map().mark(at, next, scratch)
    }

    /// Whether an instruction of the old text starts at the address.
    pub fn is_start(&self, at: u64) -> bool
        ensures { IsTrue result ↔ Contains self.now.starts at }
    {
        self.starts().contains(at)
    }

    /// Whether the instruction that starts at the address was moved.
    fn is_moved(&self, at: u64) -> bool
        ensures { IsTrue result ↔ IsMoved self.now at }
    {
        self.moves
            .binary_search_by_key(&at, |one| one.start)
            .is_ok()
    }

    /// Whether an instruction of the old text that was not moved starts at the address.
    fn is_in_place(&self, at: u64) -> bool
        ensures { IsTrue result ↔ IsInPlace self.now at }
    {
        self.is_start(at) && !self.is_moved(at)
    }

    /// The start of the moved instruction whose main is at the address.
    fn moved_to(&self, at: u64) -> Option<u64>
        ensures { IsMovedTo self.now at result }
    {
        match self.moves.binary_search_by_key(&at, |one| one.main) {
            Ok(index) => Some(self.moves[index].start),
            Err(_) => None,
        }
    }

    /// The start of the old text whose instruction runs at the address: the address itself where a start was kept or
    /// rewritten in place, the start of a moved instruction where its main is, None elsewhere.
    pub fn original_of(&self, at: u64) -> Option<u64>
        ensures { IsOriginal self.now at result }
    {
        if self.is_in_place(at) {
            Some(at)
        } else {
            self.moved_to(at)
        }
    }
}

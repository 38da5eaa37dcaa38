//! The listing of a text.

ghost use Rattle.std.specs.Prelude.{◌≡◌, ◌↔◌, IsTrue, IfOk, Contains};
ghost use Rattle.sb_rewrite.specs.Listing.{Lists, OneListing, OnePlace, ListedApart, StartsRise};

use crate::refusal::ListRefusal;
use sb_abi::TEXT_ADDRESS;
use sb_decode::decode;
use sb_slots::Starts;
use std::alloc::{AllocError, Global};
use std::marker::Model;

/// A text's instructions: to contracts, the list of their starts.
#[derive(Debug, Drop)]
pub struct Listing {
    starts: Starts,
}

impl Model for Listing {
    ghost use Rattle.std.specs.Prelude.{ℕ, List};
    ghost use Rattle.std.specs.List.Sorted.{IsStrictlyIncreasing};

    ghost Value = { List ℕ };

    ghost view = { λ listing. listing.starts };

    ghost invariant = { λ listing. IsStrictlyIncreasing listing.starts };
}

impl Listing {
    /// The addresses at which the instructions start, in order.
    pub fn starts(&self) -> &Starts
        ensures { result.now ≡ self.now }
    {
        &self.starts
    }

    /// Whether an instruction starts at the address.
    pub fn is_start(&self, at: u64) -> bool
        ensures { IsTrue result ↔ Contains self.now at }
    {
        self.starts.contains(at)
    }

    /// Gives the starts back.
    pub fn into_starts(self) -> Starts
        ensures { result ≡ self }
    {
        self.starts
    }

    /// The same listing in memory of its own.
    pub fn copied(&self, alloc: Global) -> Result<Listing, AllocError>
        ensures { IfOk result (λ copy. copy ≡ self.now) }
    {
        Ok(Listing {
            starts: self.starts.copied(alloc)?,
        })
    }
}

/// The listing of a text, which stands at `TEXT_ADDRESS`.
///
/// # Errors
///
/// `Undecoded` exactly where whole instructions spell a beginning of the text, and behind it something is left with which
/// no whole instruction begins; `Memory` where memory ran out, in place of any answer.
pub fn list(alloc: Global, text: &[u8]) -> Result<Listing, ListRefusal>
    ensures { Lists text.now result }
{
    let mut starts = Starts::with_room(alloc, text.len())?;
    let mut rest = text;
    while !rest.is_empty() {
        let at = TEXT_ADDRESS + (text.len() - rest.len()) as u64;
        match decode(rest) {
            Ok((_, length)) => {
                starts.push(at)?;
                rest = &rest[length..];
            }
            Err(_) => return Err(ListRefusal::Undecoded { at }),
        }
    }
    Ok(Listing { starts })
}

/// A law, which does nothing when it is called: a text has one listing, or one place where it has none.
pub fn one_listing()
    ensures listing { OneListing }
    ensures place { OnePlace }
    ensures apart { ListedApart }
    ensures rising { StartsRise }
{}

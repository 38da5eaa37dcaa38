//! What steps over copies read and wrote, as places with their values.

ghost use Rattle.std.specs.Prelude.{◌≡◌, ◌*◌, ◌^◌, ◌<◌, ◌∷◌, IfOk};
ghost use Rattle.sb_memory.specs.Physical.{frame_count};
ghost use Rattle.sb_partial.specs.Copies.{AllInside};
ghost use Rattle.sb_machine.specs.Seens.{seen_words};

use sb_machine::{Place, Seen, Seens};
use sb_partial::Partial;
use std::alloc::{AllocError, Global};

/// A word by its number.
fn seen_word(word: u64, value: u64) -> Seen
    requires { 8 * word < 2 ^ 64 }
    ensures { result ≡ record { place = Place.Word (8 * word); value = value } }
{
    Seen {
        place: Place::Word(8 * word),
        value,
    }
}

/// What the steps read: this, and the words that they read, with the values that were given.
pub fn reads_of(alloc: Global, part: &Partial, first: Seen) -> Result<Seens, AllocError>
    requires { frame_count part.now.given < 2 ^ 32 }
    ensures reads { IfOk result (λ reads. reads ≡ first ∷ seen_words part.now.given part.now.began.reads) }
    ensures inside { AllInside part.now.given part.now.began.reads }
{
    let words = part.reads();
    let mut reads = Vec::new(alloc);
    reads.push(first)?;
    for word in words {
        reads.push(seen_word(*word, part.given_word(*word)))?;
    }
    Ok(Seens::new(reads))
}

/// What the steps wrote: the words, with the values that they have now.
pub fn writes_of(alloc: Global, part: &Partial) -> Result<Seens, AllocError>
    requires { frame_count part.now.given < 2 ^ 32 }
    ensures writes { IfOk result (λ writes. writes ≡ seen_words part.now.memory part.now.began.writes) }
    ensures inside { AllInside part.now.given part.now.began.writes }
{
    let words = part.writes();
    let mut writes = Vec::new(alloc);
    for word in words {
        writes.push(seen_word(*word, part.word(*word)))?;
    }
    Ok(Seens::new(writes))
}

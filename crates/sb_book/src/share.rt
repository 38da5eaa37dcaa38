//! What a worker has of a book's two ledgers.

ghost use Rattle.std.specs.Prelude.{◌≡◌, ◌+◌, ◌<◌};

use std::sync::ledger;
use std::sync::ledger::Ledger;

/// A share of both ledgers: how many entries and stop units its holder has, and its parts of the right to know the whole.
#[derive(Drop)]
pub struct Share<E: Ledger, Z: Ledger> {
    /// The entries of the journal that its holder made.
    pub entries: ledger::Share<E>,
    /// The stop units that its holder was given.
    pub stops: ledger::Share<Z>,
}

impl<E: Ledger, Z: Ledger> Share<E, Z> {
    /// One part of each ledger, off a share that has no amounts.
    pub fn one_part(&mut self) -> Share<E, Z>
        requires parts { (0 < self.old.entries.parts) × (0 < self.old.stops.parts) }
        requires amounts { (self.old.entries.amount ≡ 0) × (self.old.stops.amount ≡ 0) }
        ensures one { (result.entries.parts ≡ 1) × (result.stops.parts ≡ 1) }
        ensures left { (self.new.entries.parts + 1 ≡ self.old.entries.parts) × (self.new.stops.parts + 1 ≡ self.old.stops.parts) }
        ensures amounts { (self.new.entries.amount ≡ 0) × (self.new.stops.amount ≡ 0) }
    {
        Share {
            entries: self.entries.split_off(1, 0),
            stops: self.stops.split_off(1, 0),
        }
    }

    /// Takes in another share.
    pub fn merge(&mut self, other: Share<E, Z>)
        ensures entry_parts { self.new.entries.parts ≡ self.old.entries.parts + other.entries.parts }
        ensures stop_parts { self.new.stops.parts ≡ self.old.stops.parts + other.stops.parts }
        ensures entries { self.new.entries.amount ≡ self.old.entries.amount + other.entries.amount }
        ensures stops { self.new.stops.amount ≡ self.old.stops.amount + other.stops.amount }
    {
        let Share { entries, stops } = other;
        self.entries.merge(entries);
        self.stops.merge(stops);
    }
}

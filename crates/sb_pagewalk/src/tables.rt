//! What a walk reads its entries from.

use sb_memory::GuestPhys;
use sb_walks::TableStop;

/// Page tables: for each place, an entry or why it cannot be read.
///
/// Reading changes nothing of this meaning. Beside it the tables have an account of the entries that were read, by a rule of
/// their own, so that a walk says by the rule which entries it reads, in which order.
pub trait Tables {
    ghost use Rattle.std.specs.Prelude.{◌≡◌, ◌%◌, ℕ, Result};
    ghost use Rattle.sb_walks.specs.declared.stop.TableStop.{TableStop};

    /// The type of what the reads answer by. It may hold more than that, so that the rule of the account sees it.
    ghost Meaning: { Type 0 };

    /// The type of what the tables note of the entries that are read. It is no part of the meaning, and changes at a refused
    /// read too.
    ghost Account: { Type 0 };

    /// The type of what no call changes, such as which memory the tables have borrowed.
    ghost Kept: { Type 0 };

    ghost meaning: { Self → Meaning };

    /// What is read at each place.
    ghost entries: { Meaning → ℕ → Result ℕ TableStop };

    ghost account: { Self → Account };

    /// The account after the entry at a place is read.
    ghost rule: { Meaning → ℕ → Account → Account };

    ghost kept: { Self → Kept };

    /// The entry at a place that is a multiple of 8.
    fn entry(&mut self, at: GuestPhys) -> Result<u64, TableStop>
        requires { at.0 % 8 ≡ 0 }
        ensures answer { result ≡ entries (meaning self.old) at.0 }
        ensures same { meaning self.new ≡ meaning self.old }
        ensures account { account self.new ≡ rule (meaning self.old) at.0 (account self.old) }
        ensures kept { kept self.new ≡ kept self.old };
}

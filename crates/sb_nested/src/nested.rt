//! The nested walk.

ghost use Rattle.std.specs.Prelude.{◌≡◌, ◌*◌, ◌<◌, IfOk, IsTrue};
ghost use Rattle.sb_memory.specs.declared.page.TheConstants.{PAGE_SIZE};
ghost use Rattle.sb_memory.specs.Accounts.{account_after_words};
ghost use Rattle.sb_memory.specs.Physical.{frame_count};
ghost use Rattle.sb_walks.specs.Entry.{frame_in};
ghost use Rattle.sb_walks.specs.Ept.{is_eptp};
ghost use Rattle.sb_walks.specs.Nested.{memory_behind, translation, translation_reads};

use crate::tables::TablesBehindEpt;
use sb_eptwalk::ept_walk;
use sb_memory::{Access, Linear, Phys, PhysAddr};
use sb_pagewalk::walk;
use sb_walks::NestedStop;

/// The physical address of a linear one for a user-mode access: the guest's walk from the table to which CR3 leads, in which
/// each address goes through the EPT, those of entries for reading and the last one for the access.
///
/// # Errors
///
/// `Walk` is a refusal of the guest's walk, where an entry that cannot be read through the EPT is `WalkStop::Table`. `Page` is
/// a refusal of the EPT at the address to which that walk leads.
#[tactic(auto, using(crate::proofs::Entries::after_entries_words, sb_memory::proofs::Accounts::after_words_append), unfolding(sb_walks::specs::Nested::translation, sb_walks::specs::Nested::translation_reads))]
pub fn translate<P: Phys>(
    phys: &mut P,
    eptp: u64,
    cr3: u64,
    at: Linear,
    access: Access,
) -> Result<PhysAddr, NestedStop>
    requires eptp { IsTrue (is_eptp eptp) }
    requires root { frame_in eptp < frame_count (P.meaning phys.old) }
    ensures answer { result ≡ translation (memory_behind (P.meaning phys.old) eptp) cr3 at.0 access }
    ensures inside { IfOk result (λ place. place.0 < PAGE_SIZE * frame_count (P.meaning phys.old)) }
    ensures same { P.meaning phys.new ≡ P.meaning phys.old }
    ensures account { P.account phys.new
        ≡ account_after_words P.rule (P.meaning phys.old)
        (translation_reads (memory_behind (P.meaning phys.old) eptp) cr3 at.0 access) (P.account phys.old) }
    ensures kept { P.kept phys.new ≡ P.kept phys.old }
{
    match walk(&mut TablesBehindEpt { phys, eptp }, cr3, at, access) {
        Ok(page) => match ept_walk(phys, eptp, page, access) {
            Ok(place) => Ok(place),
            Err(stop) => Err(NestedStop::Page(stop)),
        },
        Err(stop) => Err(NestedStop::Walk(stop)),
    }
}

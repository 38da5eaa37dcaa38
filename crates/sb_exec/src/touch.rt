//! Whether an instruction accesses a page.

ghost use Rattle.std.specs.Prelude.{◌≡◌};
ghost use Rattle.std.specs.List.{list_any};
ghost use Rattle.sb_alu.specs.Size.{size_bytes};
ghost use Rattle.sb_exec.specs.Row.{load_accesses};
ghost use Rattle.sb_exec.specs.Rows.{row_of};
ghost use Rattle.sb_exec.specs.Touching.{reaches, access_reaches, touches, store_reaches};

use crate::action::{Load, Store};
use crate::rows::{load_of, store_of};
use crate::table::action_of;
use sb_alu::Size;
use sb_insn::{Insn, Regs};
use sb_memory::{Linear, PAGE_SIZE};

/// Whether some byte of an access lies in the page.
fn reaches(page: u64, address: Linear, size: Size) -> bool
    ensures { result ≡ reaches page address.0 (size_bytes size) }
{
    if address.0 < page {
        page - address.0 < u64::from(size.bytes())
    } else {
        address.0 - page < PAGE_SIZE
    }
}

/// Whether a load accesses the page.
fn load_reaches(page: u64, load: Load) -> bool
    ensures { result ≡ list_any (access_reaches page) (load_accesses load) }
{
    match load {
        Load::Nothing => false,
        Load::Read(address, size) | Load::ReadForWrite(address, size) => reaches(
            page, address, size,
        ),
    }
}

/// Whether a store accesses the page.
fn store_reaches(page: u64, store: Store) -> bool
    ensures { result ≡ store_reaches page store }
{
    match store {
        Store::Nothing => false,
        Store::At(address, size) => reaches(page, address, size),
    }
}

/// Whether the instruction, with these registers, accesses a byte of the page that begins at the address.
#[tactic(auto, using(crate::proofs::Touched::touched), unfolding(crate::specs::Rows::row_of))]
pub fn touches(insn: &Insn, regs: &Regs, page: u64) -> bool
    ensures { result ≡ touches page (row_of insn.now regs.now) }
{
    let action = action_of(insn);
    load_reaches(page, load_of(action, insn, regs))
        || store_reaches(page, store_of(action, insn, regs))
}

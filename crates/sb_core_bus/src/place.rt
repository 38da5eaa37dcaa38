//! Where the bytes of an access lie, by one walk.

ghost use Rattle.std.specs.Prelude.{◌≡◌, ◌≤◌, ◌<◌, IfSome, IsTrue};
ghost use Rattle.sb_memory.specs.declared.page.TheConstants.{PAGE_SIZE};
ghost use Rattle.sb_memory.specs.Physical.{frame_count};
ghost use Rattle.sb_walks.specs.Entry.{frame_in};
ghost use Rattle.sb_walks.specs.Ept.{is_eptp};
ghost use Rattle.sb_nested.specs.View.{view};
ghost use Rattle.sb_core_bus.specs.LiesAt.{LiesAt};

use sb_memory::{Access, Linear, Memory, PAGE_SIZE, Phys, PhysAddr};
use sb_nested::translate;

/// Where so many bytes from an address on lie one after another, if they end in the page in which they begin and the walk of
/// the first is not refused.
#[inline]
pub fn place_in_page(
    memory: &mut Memory,
    eptp: u64,
    cr3: u64,
    at: Linear,
    size: u64,
    access: Access,
) -> Option<PhysAddr>
    requires eptp { IsTrue (is_eptp eptp) }
    requires root { frame_in eptp < frame_count memory.old }
    requires few { size ≤ PAGE_SIZE }
    ensures found { IfSome result (λ place. LiesAt (view memory.old eptp cr3) access at.0 size place.0) }
    ensures same { memory.new ≡ memory.old }
{
    if PAGE_SIZE < at.offset() + size {
        return None;
    }
    let _frames = memory.frames();
    match translate(memory, eptp, cr3, at, access) {
        Ok(place) => Some(place),
        Err(_) => None,
    }
}

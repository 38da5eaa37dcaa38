//! System call 2, as far as bytes go: the pool word, and the pages of the stacks.

ghost use Rattle.std.specs.Prelude.{◌≡◌, ◌+◌, ◌-◌, ◌*◌, ◌^◌, ◌<◌, ◌≤◌, Some};
ghost use Rattle.sb_abi.specs.declared.space.TheConstants.{MAX_STACKS, STACK_PAGES};
ghost use Rattle.sb_memory.specs.Physical.{frame_count};
ghost use Rattle.sb_frames.specs.Book.{free_count};
ghost use Rattle.sb_mapping.specs.Taking.{CanTake};
ghost use Rattle.sb_sub.specs.Registering.{FindsPool, RegistersPages, pool_found};

use sb_abi::{POOL_ADDRESS, STACK_PAGES};
use sb_frames::FrameBook;
use sb_mapping::add_stacks;
use sb_memory::{Access, Frame, Linear, Memory, PAGE_SIZE, PhysAddr};
use sb_pagewalk::{Direct, TableSet, walk};
use sb_root::RootKernel;

/// The frame of the pool page of a process.
fn pool_frame(memory: &mut Memory, set: &TableSet, root: &RootKernel) -> Frame
    requires { FindsPool memory.old set.now root.now }
    ensures same { memory.new ≡ memory.old }
    ensures frame { pool_found memory.old set.now ≡ Some result }
    ensures inside { result.0 < frame_count memory.old }
{
    let tables = PAGE_SIZE * u64::from(set.root.0);
    match walk(
        &mut Direct::new(memory),
        tables,
        Linear(POOL_ADDRESS),
        Access::Read,
    ) {
        Ok(at) => Frame((at.0 / PAGE_SIZE) as u32),
        Err(_) => unreachable!(),
    }
}

/// A bit for each of so many stacks.
fn all_stacks(stacks: u32) -> u64
    requires { stacks ≤ MAX_STACKS }
    ensures { result ≡ 2 ^ stacks - 1 }
{
    (1 << stacks) - 1
}

/// Puts the pool word of a process, in which all stacks are free, and adds the pages of the stacks.
pub fn register_pages(
    set: &TableSet,
    memory: &mut Memory,
    book: &mut FrameBook,
    root: &mut RootKernel,
    owner: u32,
    stacks: u32,
)
    requires pool { FindsPool memory.old set.now root.old }
    requires few { stacks ≤ MAX_STACKS }
    requires some { STACK_PAGES * stacks ≤ free_count book.old }
    requires can { CanTake set.now root.old book.old memory.old }
    ensures root { root.new ≡ root.old }
    ensures pages { RegistersPages set.now root.old book.old book.new memory.old memory.new owner stacks }
    ensures fewer { free_count book.new + STACK_PAGES * stacks ≡ free_count book.old }
{
    let pool = pool_frame(memory, set, root);
    memory.set_word(PhysAddr(PAGE_SIZE * u64::from(pool.0)), all_stacks(stacks));
    add_stacks(set, memory, book, root, owner, STACK_PAGES as u32 * stacks);
}

//! What a core has done elsewhere, put into the parts of a machine.

ghost use Rattle.std.specs.Prelude.{◌≡◌, ◌<◌, length};
ghost use Rattle.sb_memory.specs.Physical.{IsPhysical};
ghost use Rattle.sb_machine.specs.Applied.{is_decided, is_word_place, machine_behind, origin_kept, with_seen, with_seens, with_word};

use crate::parts::Parts;
use crate::place::{Place, Seen, Seens};
use crate::processor::{Core, CoreState, Origin};
use sb_abi::{BRANCH_ON_EXCHANGE, BRANCH_ON_KEY, BRANCH_ON_POOL, STACK_OFFSET, TEST_MASK};
use sb_insn::Regs;
use sb_insn::registers::RAX;
use sb_memory::{Memory, PAGE_SIZE, Phys, PhysAddr};

// ---- the core

/// Whether a core that is to do this phase with these registers has no call before its decision.
fn is_decided(phase: Option<u8>, regs: &Regs) -> bool
    ensures { result ≡ is_decided phase regs.now }
{
    match phase {
        None => true,
        Some(BRANCH_ON_KEY) => !regs.flags.zf,
        Some(TEST_MASK | BRANCH_ON_POOL) => regs.general[RAX] == 0,
        Some(BRANCH_ON_EXCHANGE) => regs.flags.zf,
        Some(phase) => STACK_OFFSET <= phase,
    }
}

/// Where the thread stood at the VMFUNC, kept where the call is not decided.
fn origin_kept(after: &CoreState, origin: Option<Origin>) -> Option<Origin>
    ensures { result ≡ origin_kept after.now origin }
{
    if is_decided(after.phase, &after.regs) {
        None
    } else {
        origin
    }
}

// ---- memory

/// Whether a word may stand at a place.
fn is_word_place(memory: &Memory, place: u64) -> bool
    ensures { result ≡ is_word_place memory.now place }
{
    place.is_multiple_of(8) && place < PAGE_SIZE * u64::from(memory.frames())
}

/// Puts a word where one may stand.
fn put_word(memory: &mut Memory, place: u64, word: u64)
    ensures { memory.new ≡ with_word memory.old place word }
{
    if is_word_place(memory, place) {
        memory.set_word(PhysAddr(place), word);
    }
}

/// Puts a word that was seen.
fn put_seen(memory: &mut Memory, seen: &Seen)
    ensures { memory.new ≡ with_seen memory.old seen.now }
{
    match seen.place {
        Place::Word(place) => put_word(memory, place, seen.value),
        Place::Core(_) => {}
    }
}

/// Puts words that were seen, one after another.
fn put_seens(memory: &mut Memory, seens: &[Seen])
    ensures { memory.new ≡ with_seens memory.old seens.now }
{
    for seen in seens {
        put_seen(memory, seen);
    }
}

// ---- the machine

/// Puts the state of a core and the words that it wrote.
#[tactic(auto, unfolding(crate::specs::Machine::core_at))]
pub fn apply(parts: &mut Parts, number: u8, after: &CoreState, writes: &Seens)
    requires { number < length parts.old.cores }
    ensures applied { parts.new ≡ machine_behind parts.old number after.now writes.now }
    ensures physical { IsPhysical parts.old.memory }
{
    let _ = parts.memory.frames();
    put_seens(&mut parts.memory, writes.items());
    let core = parts.core(number);
    let behind = Core {
        state: *after,
        origin: origin_kept(after, core.origin),
        ..core
    };
    parts.set_core(number, behind);
}

//! Whether a core is in the same state.

ghost use Rattle.std.specs.Prelude.{◌≡◌, true};

use sb_insn::{Flags, Regs};
use sb_machine::CoreState;

/// Whether these are the same numbers.
fn are_same_numbers(one: &[u64; 16], other: &[u64; 16]) -> bool
    ensures { result ≡ true → one.now ≡ other.now }
{
    for index in 0..16 {
        if one[index] != other[index] {
            return false;
        }
    }
    true
}

/// Whether these are the same flags.
fn are_same_flags(one: &Flags, other: &Flags) -> bool
    ensures { result ≡ true → one.now ≡ other.now }
{
    if one.cf != other.cf || one.pf != other.pf || one.zf != other.zf {
        return false;
    }
    if one.sf != other.sf || one.of != other.of {
        return false;
    }
    true
}

/// Whether these are the same registers.
fn are_same_regs(one: &Regs, other: &Regs) -> bool
    ensures { result ≡ true → one.now ≡ other.now }
{
    if one.rip != other.rip || !are_same_flags(&one.flags, &other.flags) {
        return false;
    }
    are_same_numbers(&one.general, &other.general)
}

/// Whether these are the same words of a core's walks.
fn are_same_roots(one: &CoreState, other: &CoreState) -> bool
    ensures pointer { result ≡ true → one.now.eptp ≡ other.now.eptp }
    ensures root { result ≡ true → one.now.cr3 ≡ other.now.cr3 }
    ensures list { result ≡ true → one.now.list ≡ other.now.list }
{
    one.eptp == other.eptp && one.cr3 == other.cr3 && one.list == other.list
}

/// Whether these are the same phases.
fn are_same_phases(one: Option<u8>, other: Option<u8>) -> bool
    ensures { result ≡ true → one ≡ other }
{
    one == other
}

/// Whether these are the same states of a core.
pub fn are_same_states(one: &CoreState, other: &CoreState) -> bool
    ensures { result ≡ true → one.now ≡ other.now }
{
    if one.made != other.made
        || one.view != other.view
        || !are_same_phases(one.phase, other.phase)
    {
        return false;
    }
    if !are_same_roots(one, other) {
        return false;
    }
    are_same_regs(&one.regs, &other.regs)
}

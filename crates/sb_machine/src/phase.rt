//! The phase of a landing at which a core stands.

ghost use Rattle.std.specs.Prelude.{◌≡◌, Some};
ghost use Rattle.sb_machine.specs.Phase.{phase_at, phase_behind};

use sb_abi::{
    ADD_OFFSET, BRANCH_ON_EXCHANGE, BRANCH_ON_KEY, BRANCH_ON_POOL, CLEAR_INDEX, CLEAR_MASK,
    CLEAR_OFFSET, COMPARE_KEY, DROP_BIT, ENTER, EXCHANGE_POOL, FIND_STACK, GO_HOME, HOME_INDEX,
    HOME_LEAF, JUMP_BACK, LEAVE, LESS_ONE, LOAD_BASE, LOAD_POOL, SKIP, STACK_OFFSET,
    STATUS_POOL_EMPTY, STATUS_WRONG_KEY, TEST_MASK,
};

/// The phase whose instruction stands at an address.
#[tactic(auto, unfolding(crate::specs::Phase::phase_at))]
pub fn phase_at(rip: u64) -> Option<u8>
    ensures { result ≡ phase_at rip }
{
    match rip {
        0x7000_0043 => Some(COMPARE_KEY),
        0x7000_004B => Some(BRANCH_ON_KEY),
        0x7000_004D => Some(LOAD_POOL),
        0x7000_0055 => Some(TEST_MASK),
        0x7000_0058 => Some(BRANCH_ON_POOL),
        0x7000_005A => Some(LESS_ONE),
        0x7000_005E => Some(DROP_BIT),
        0x7000_0061 => Some(FIND_STACK),
        0x7000_0065 => Some(EXCHANGE_POOL),
        0x7000_006F => Some(BRANCH_ON_EXCHANGE),
        0x7000_0071 => Some(STACK_OFFSET),
        0x7000_0075 => Some(LOAD_BASE),
        0x7000_007D => Some(ADD_OFFSET),
        0x7000_0080 => Some(CLEAR_OFFSET),
        0x7000_0083 => Some(CLEAR_INDEX),
        0x7000_0085 => Some(CLEAR_MASK),
        0x7000_0087 => Some(ENTER),
        0x7000_008E => Some(STATUS_WRONG_KEY),
        0x7000_0094 => Some(SKIP),
        0x7000_0096 => Some(STATUS_POOL_EMPTY),
        0x7000_009C => Some(LEAVE),
        0x7000_009F => Some(HOME_INDEX),
        0x7000_00A1 => Some(HOME_LEAF),
        0x7000_00A3 => Some(JUMP_BACK),
        0x7000_0040 => Some(GO_HOME),
        _ => None,
    }
}

/// The phase behind an instruction, which left this RIP, of a thread that was to do a phase, or was in no flight.
pub fn phase_behind(phase: Option<u8>, rip: u64) -> Option<u8>
    ensures { result ≡ phase_behind phase rip }
{
    match phase {
        None | Some(ENTER) => None,
        Some(_) => phase_at(rip),
    }
}

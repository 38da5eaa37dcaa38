//! The phases of a landing.

ghost use Rattle.std.specs.Prelude.{◌≡◌, ◌<◌, ◌↔◌, None};
ghost use Rattle.sb_abi.specs.declared.trampoline.TheConstants.{GO_HOME};
ghost use Rattle.sb_tramp.specs.Landing.{landing_at};

use sb_abi::{
    ADD_OFFSET, BRANCH_ON_EXCHANGE, BRANCH_ON_KEY, BRANCH_ON_POOL, CLEAR_INDEX, CLEAR_MASK,
    CLEAR_OFFSET, COMPARE_KEY, DROP_BIT, ENTER, EXCHANGE_POOL, FIND_STACK, GO_HOME, HOME_INDEX,
    HOME_LEAF, JUMP_BACK, LEAVE, LESS_ONE, LOAD_BASE, LOAD_POOL, SKIP, STACK_OFFSET,
    STATUS_POOL_EMPTY, STATUS_WRONG_KEY, TEST_MASK,
};

/// Where the instruction of a phase stands in the server page.
#[derive(Clone, Copy, Debug, PartialEq, Eq)]
pub struct LandingRow {
    /// From the beginning of the page, in bytes.
    pub offset: u16,
    /// How many bytes the instruction has.
    pub length: u8,
}

/// The instruction of a phase of the landing; `None` exactly for a phase above `GO_HOME`.
///
/// The phases below are the instructions behind VMFUNC in the order of the page; `GO_HOME` is the VMFUNC by which a refused
/// call goes home.
#[tactic(auto, unfolding(crate::specs::Landing::landing_at))]
pub fn landing_row(phase: u8) -> Option<LandingRow>
    ensures row { result ≡ landing_at phase }
    ensures none { (result ≡ None) ↔ (GO_HOME < phase) }
{
    let (offset, length) = match phase {
        COMPARE_KEY => (0x43, 8),
        BRANCH_ON_KEY => (0x4B, 2),
        LOAD_POOL => (0x4D, 8),
        TEST_MASK => (0x55, 3),
        BRANCH_ON_POOL => (0x58, 2),
        LESS_ONE => (0x5A, 4),
        DROP_BIT => (0x5E, 3),
        FIND_STACK => (0x61, 4),
        EXCHANGE_POOL => (0x65, 10),
        BRANCH_ON_EXCHANGE => (0x6F, 2),
        STACK_OFFSET => (0x71, 4),
        LOAD_BASE => (0x75, 8),
        ADD_OFFSET => (0x7D, 3),
        CLEAR_OFFSET => (0x80, 3),
        CLEAR_INDEX => (0x83, 2),
        CLEAR_MASK => (0x85, 2),
        ENTER => (0x87, 7),
        STATUS_WRONG_KEY => (0x8E, 6),
        SKIP => (0x94, 2),
        STATUS_POOL_EMPTY => (0x96, 6),
        LEAVE => (0x9C, 3),
        HOME_INDEX => (0x9F, 2),
        HOME_LEAF => (0xA1, 2),
        JUMP_BACK => (0xA3, 2),
        GO_HOME => (0x40, 3),
        _ => return None,
    };
    Some(LandingRow { offset, length })
}

//! The laws, for the memory of the tests.

use crate::board::Board;
use sb_exec::{
    Pair, executes_agreeing, executes_told, one_fetch, one_fetch_on, rows_agreeing, rows_alike,
    rows_in, rows_told,
};

/// The memory of the tests beside itself.
struct Itself;

impl Pair for Itself {
    ghost use Rattle.std.specs.Prelude.{◌≡◌};
    ghost use Rattle.sb_exec_tests.specs.TestBus.{TestMemory, test_interface};

    ghost Of = { Unit {0} };

    ghost Left = { TestMemory };

    ghost LeftAccount = { Unit {0} };

    ghost Right = { TestMemory };

    ghost RightAccount = { Unit {0} };

    ghost left = { λ which. test_interface };

    ghost right = { λ which. test_interface };

    ghost related = { λ which first second. second ≡ first };
}

#[test]
fn the_laws_speak_of_this_memory(_rt: HostRuntime) {
    one_fetch();
    one_fetch_on::<Board<'_>>();
    rows_agreeing::<Itself>();
    rows_told::<Itself>();
    rows_alike::<Itself>();
    rows_in::<Itself>();
    executes_agreeing::<Itself>();
    executes_told::<Itself>();
}

//! Calls in a server's view.

use crate::pair::run;
use crate::programs::Action::{Call, Enter};
use crate::programs::{Row, Scenario};
use sb_insn::registers::R9;
use std::test::Fail;

/// The key word.
const KEY: u64 = 0x1122_3344_5566_7788;

/// The handler of the server, behind the first call of its text.
const HANDLER: u64 = 0x40_0020;

/// A client's thread calls a server, and makes calls in its view.
#[rattlefmt::skip]
const VISIT: [Row; 12] = [
    ("a server", 1, 1, Call([2, HANDLER, 1], [0, 0])),
    ("a binding", 0, 0, Call([3, 1, 0], [0, 1])),
    ("into its view", 0, 0, Enter(1, KEY)),
    ("print", 0, 1, Call([1, 5, 0], [0, 0])),
    ("register in a server's view", 0, 1, Call([2, HANDLER, 1], [10, 0])),
    ("bind in a server's view", 0, 1, Call([3, 1, 0], [10, 0])),
    ("the server's heap, executed", 0, 1, Call([4, 0, 1], [0, 0])),
    ("no page of its heap", 0, 1, Call([4, 1, 0], [18, 0])),
    ("no mode", 0, 1, Call([4, 0, 2], [19, 0])),
    ("no call", 0, 1, Call([6, 0, 0], [21, 0])),
    ("the server's heap, written", 0, 1, Call([4, 0, 0], [0, 0])),
    ("exit, by which the thread goes home", 0, 1, Call([0, 9, 0], [0, 0])),
];

#[test]
fn calls_in_a_servers_view_act_on_the_server(rt: HostRuntime) -> Result<(), Fail> {
    let scenario = Scenario {
        frames: 512 + 2 * 16 + 2 * 12 + 34,
        keys: &[KEY, 1],
        processes: 2,
        threads: 2,
        heap_pages: 1,
        rows: &VISIT,
    };
    let pair = run(rt.alloc(), &rt, &scenario)?;
    // As after a fault in the server's view.
    let regs = pair.regs(0);
    assert_eq!(rt; (regs.rip, regs.general[R9]), (0x7000_0043, 4));
    assert_eq!(rt; pair.left(), (20, 1));
    Ok(())
}

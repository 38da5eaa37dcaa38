//! How a thread comes home, and what a fault does.

ghost use Rattle.std.specs.Prelude.{◌≡◌};
ghost use Rattle.sb_state.specs.State.{thread_at};
ghost use Rattle.sb_trace.specs.Home.{state_at_home, fault_outcome};

use sb_calls::server_fault_regs;
use sb_exec::FaultKind;
use sb_state::{EndKind, PlainState};
use sb_trace::Event;

/// Sends the thread of a core home from a server's view. The stack that it has of the server stays taken.
pub fn send_home(state: &mut PlainState, core: u8)
    ensures { state.new ≡ state_at_home state.old core }
{
    state.set_view(core, 0, server_fault_regs());
}

/// A fault of the thread of a core, and its line. At home it ends the thread; in a server's view it sends it home.
pub fn fault(state: &mut PlainState, core: u8, kind: FaultKind, at: u64) -> Event
    ensures { (result, state.new) ≡ fault_outcome state.old core kind at }
{
    if state.thread(core).view == 0 {
        state.set_end(core, EndKind::Faulted(kind, at));
        Event::Fault { kind, at }
    } else {
        send_home(state, core);
        Event::ServerFault { kind, at }
    }
}

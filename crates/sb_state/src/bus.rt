//! The memory of a thread in a view, as instructions access it.

ghost use Rattle.std.specs.Prelude.{◌≡◌, ◌≤◌};
ghost use Rattle.sb_bus.specs.Access.{byte_for, loaded_from};
ghost use Rattle.sb_state.specs.PlainMemory.{plain_byte};
ghost use Rattle.sb_state.specs.ThreadMemory.{memory_of};

use crate::plain_state::PlainState;
use crate::read::{byte, load_in_page};
use crate::write::store;
use sb_bus::{Bus, BusStop, ByteSource, load_bytes};
use sb_memory::{Access, Linear};

/// The memory of a thread in a view.
#[derive(Drop)]
pub struct PlainBus<'a> {
    state: &'a mut PlainState,
    thread: u32,
    view: u32,
}

impl<'a> PlainBus<'a> {
    pub fn new(state: &'a mut PlainState, thread: u32, view: u32) -> PlainBus<'a>
        ensures loan { result.state.ghost_name ≡ state.entry.ghost_name }
        ensures state { result.state.now ≡ state.old }
        ensures thread { result.thread ≡ thread }
        ensures view { result.view ≡ view }
    {
        PlainBus {
            state,
            thread,
            view,
        }
    }

    /// The number of some bytes from an address upwards, its lowest byte first. Where they end in the page
    /// in which they begin, that page is looked up once.
    fn number(&mut self, at: Linear, size: u8, access: Access) -> Result<u64, BusStop>
        requires { size ≤ 8 }
        ensures answer { result
            ≡ loaded_from (byte_for (plain_byte self.old.thread self.old.view self.old.state.now) access) at.0 size }
        ensures same { memory_of self.new.thread self.new.view self.new.state.now
            ≡ memory_of self.old.thread self.old.view self.old.state.now }
        ensures kept { self.new.state.ghost_name ≡ self.old.state.ghost_name }
    {
        if 0 < size && at.0 % 4096 <= 4096 - u64::from(size) {
            load_in_page(self.state, self.thread, self.view, at, size, access)
        } else {
            load_bytes(self, at, size, access)
        }
    }
}

impl<'a> ByteSource for PlainBus<'a> {
    ghost use Rattle.std.specs.Prelude.{ℕ};
    ghost use Rattle.sb_state.specs.ThreadMemory.{ThreadMemory, memory_of, thread_memory_byte, no_byte_rule};

    ghost Meaning = { ThreadMemory };

    ghost Account = { Unit {0} };

    ghost Kept = { ℕ };

    ghost gives = { thread_memory_byte };

    ghost rule = { no_byte_rule };

    ghost meaning = { λ bus. memory_of bus.thread bus.view bus.state.now };

    ghost account = { λ bus. tt };

    ghost kept = { λ bus. bus.state.ghost_name };

    fn byte(&mut self, at: Linear, access: Access) -> Result<u8, BusStop> {
        byte(self.state, self.thread, self.view, at, access)
    }
}

impl<'a> Bus for PlainBus<'a> {
    ghost use Rattle.std.specs.Prelude.{ℕ};
    ghost use Rattle.sb_state.specs.ThreadMemory.{ThreadMemory, memory_of, thread_memory};

    ghost Meaning = { ThreadMemory };

    ghost Account = { Unit {0} };

    ghost Kept = { ℕ };

    ghost interface = { thread_memory };

    ghost meaning = { λ bus. memory_of bus.thread bus.view bus.state.now };

    ghost account = { λ bus. tt };

    ghost kept = { λ bus. bus.state.ghost_name };

    fn fetch(&mut self, at: Linear) -> Result<u8, BusStop> {
        byte(self.state, self.thread, self.view, at, Access::Fetch)
    }

    fn load(&mut self, at: Linear, size: u8) -> Result<u64, BusStop> {
        self.number(at, size, Access::Read)
    }

    #[tactic(auto, using(crate::proofs::Writing::loaded_for_write))]
    fn load_for_write(&mut self, at: Linear, size: u8) -> Result<u64, BusStop> {
        self.number(at, size, Access::Write)
    }

    fn store(&mut self, at: Linear, size: u8, value: u64) -> Result<(), BusStop> {
        store(self.state, self.thread, self.view, at, size, value)
    }
}

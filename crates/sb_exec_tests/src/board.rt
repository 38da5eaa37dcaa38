//! The memory of the tests.
//!
//! It notes a store and changes no byte: a test compares what is stored, by address, size and number, with what its row says.
//! No instruction loads after it has stored, so none can tell. What a store leaves is the law of the memories that keep it
//! (`sb_state`, `sb_nested`: `stores_change_what_they_reach`).

ghost use Rattle.std.specs.Prelude.{◌≡◌};
ghost use Rattle.sb_exec_tests.specs.TestBus.{test_memory, test_byte};

use sb_bus::{Bus, BusStop, ByteSource, FaultKind, load_bytes};
use sb_memory::{Access, Linear};

/// Where the data begins.
pub const DATA: u64 = 0x80_0000;

/// Text from address 0 on, which can only be fetched, and data, which can be read and maybe written.
#[derive(Drop)]
pub struct Board<'a> {
    pub text: &'a [u8],
    pub bytes: &'a [u8],
    pub writable: bool,
    /// The last store: address, size and number. It changes no byte.
    pub noted: Option<(u64, u8, u64)>,
}

/// The byte at an address.
#[tactic(auto, unfolding(crate::specs::TestBus::test_byte, crate::specs::TestBus::data_byte))]
fn byte(board: &Board<'_>, at: Linear, access: Access) -> Result<u8, BusStop>
    ensures { result
        ≡ test_byte (test_memory board.now.text.now board.now.bytes.now board.now.writable board.now.noted) at.0 access }
{
    let found = match access {
        Access::Fetch => board.text.get(at.0 as usize),
        Access::Write if !board.writable => None,
        Access::Read | Access::Write => match at.0.checked_sub(DATA) {
            Some(offset) => board.bytes.get(offset as usize),
            None => None,
        },
    };
    match found {
        Some(byte) => Ok(*byte),
        None => Err(BusStop::Fault(FaultKind::Memory, at)),
    }
}

impl ByteSource for Board<'_> {
    ghost use Rattle.std.specs.Prelude.{ℕ};
    ghost use Rattle.sb_exec_tests.specs.TestBus.{TestMemory, test_memory, test_byte, test_byte_rule};

    ghost Meaning = { TestMemory };

    ghost Account = { Unit {0} };

    ghost Kept = { Unit {0} };

    ghost gives = { test_byte };

    ghost rule = { test_byte_rule };

    ghost meaning = { λ board. test_memory board.text.now board.bytes.now board.writable board.noted };

    ghost account = { λ board. tt };

    ghost kept = { λ board. tt };

    fn byte(&mut self, at: Linear, access: Access) -> Result<u8, BusStop> {
        byte(self, at, access)
    }
}

impl Bus for Board<'_> {
    ghost use Rattle.std.specs.Prelude.{ℕ};
    ghost use Rattle.sb_exec_tests.specs.TestBus.{TestMemory, test_memory, test_interface};

    ghost Meaning = { TestMemory };

    ghost Account = { Unit {0} };

    ghost Kept = { Unit {0} };

    ghost interface = { test_interface };

    ghost meaning = { λ board. test_memory board.text.now board.bytes.now board.writable board.noted };

    ghost account = { λ board. tt };

    ghost kept = { λ board. tt };

    fn fetch(&mut self, at: Linear) -> Result<u8, BusStop> {
        byte(self, at, Access::Fetch)
    }

    fn load(&mut self, at: Linear, size: u8) -> Result<u64, BusStop> {
        load_bytes(self, at, size, Access::Read)
    }

    #[tactic(auto, using(crate::proofs::TestBus::loaded_to_write))]
    fn load_for_write(&mut self, at: Linear, size: u8) -> Result<u64, BusStop> {
        load_bytes(self, at, size, Access::Write)
    }

    #[tactic(auto, using(sb_bus::proofs::Loads::stored_where_loaded, sb_bus::proofs::Loads::stops_where_loaded), unfolding(crate::specs::TestBus::test_stored))]
    fn store(&mut self, at: Linear, size: u8, value: u64) -> Result<(), BusStop> {
        load_bytes(self, at, size, Access::Write)?;
        self.noted = Some((at.0, size, value));
        Ok(())
    }
}

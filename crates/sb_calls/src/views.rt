//! The buffer and the record page of a view.

ghost use Rattle.std.specs.Prelude.{◌≡◌};
ghost use Rattle.sb_calls.specs.Views.{buffer_address, server_record};

use sb_abi::{BUFFER_DISTANCE, BUFFERS_ADDRESS, BUFFERS_PER_THREAD, FIRST_STACK_TOP};
use sb_tramp::RecordWords;

/// The first byte of the buffer of a view, in the client's memory and in the server's.
pub fn buffer_address(thread: u8, index: u16) -> u64
    ensures { result ≡ buffer_address thread index }
{
    let buffer = BUFFERS_PER_THREAD * u64::from(thread) + u64::from(index);
    BUFFERS_ADDRESS + buffer * BUFFER_DISTANCE
}

/// What the record page of a thread's view of a server says.
pub fn server_record(thread: u8, home: u32, key: u64, handler: u64) -> RecordWords
    ensures { result ≡ server_record thread home key handler }
{
    RecordWords {
        key,
        base: FIRST_STACK_TOP,
        handler,
        thread: u64::from(thread),
        save: 0,
        home: u64::from(home),
    }
}

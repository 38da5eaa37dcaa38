//! A frame of a machine's memory.

ghost use Rattle.std.specs.Prelude.{◌≡◌, ◌<◌, length};
ghost use Rattle.sb_memory.specs.Frames.{frame_bytes};
ghost use Rattle.sb_memory.specs.Physical.{HasSize, frame_count};

use sb_memory::{Frame, Memory, PAGE_SIZE};

/// The bytes of a frame.
pub fn frame_bytes(memory: &Memory, frame: Frame) -> &[u8]
    requires size { HasSize memory.now }
    requires there { frame.0 < frame_count memory.now }
    ensures bytes { result.now ≡ frame_bytes memory.now frame.0 }
    ensures size { length result.now ≡ PAGE_SIZE }
{
    let start = frame.base().0 as usize;
    &memory.bytes()[start..start + PAGE_SIZE as usize]
}

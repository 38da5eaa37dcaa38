//! Frames that are filled with words.

ghost use Rattle.std.specs.Prelude.{◌≡◌, ◌<◌, ◌≤◌, [], ◌∷◌, length};
ghost use Rattle.sb_memory.specs.declared.page.TheConstants.{PAGE_SIZE};
ghost use Rattle.sb_memory.specs.Physical.{HasSize, HoldsBytes, frame_count};
ghost use Rattle.sb_memory.specs.Changes.{SameOutside};
ghost use Rattle.sb_memory.specs.Words.{put_words, zeros};
ghost use Rattle.sb_root.specs.Tables.{IsPage, from_start};

use sb_memory::{Frame, Memory};

/// Puts words at the start of a frame, and zeros after them.
pub fn put_page(memory: &mut Memory, frame: Frame, words: &[u64])
    requires inside { frame.0 < frame_count memory.old }
    requires fits { length words.now ≤ 512 }
    ensures page { IsPage memory.new frame.0 (from_start words.now) }
    ensures bytes { HoldsBytes memory.new frame.0 (put_words (zeros PAGE_SIZE) 0 words.now) }
    ensures size { HasSize memory.new }
    ensures same { SameOutside (frame.0 ∷ []) memory.old memory.new }
{
    memory.clear_frame(frame);
    for index in 0..words.len() {
        memory.set_word(frame.word(index as u64), words[index]);
    }
}

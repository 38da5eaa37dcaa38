//! Words that are noted as read and as written.

ghost use Rattle.std.specs.Prelude.{ℕ, ◌≡◌, ◌/◌, ◌≤◌, true, false, if◌then◌else◌, get_or, length, take, vec_capacity};
ghost use Rattle.sb_agree.specs.Noted.{with_word};
ghost use Rattle.sb_partial.specs.CopiedFrames.{IsSound};
ghost use Rattle.sb_partial.specs.Noting.{AllThere, AreFlags, AreGivenBeside, IsNoting, reads_after};
ghost use Rattle.sb_partial.specs.CopiedFrame.{no_flags};
ghost use Rattle.sb_partial.specs.declared.frame.TheConstants.{FRAME_WORDS};

use crate::frames::FrameCopies;

/// Notes a word of a frame that is there as read, where it is noted neither as read nor as written.
pub fn note_read(copies: &mut FrameCopies, reads: &mut Vec<u64>, word: u64)
    requires there { get_or copies.old.present (word / FRAME_WORDS) false ≡ true }
    requires sound { IsSound copies.old }
    requires noting { IsNoting copies.old.present copies.old.read reads.old.items (vec_capacity reads.old) }
    ensures words { reads.new.items ≡ reads_after (get_or copies.old.written word false) word reads.old.items }
    ensures copies { copies.new ≡ record copies.old { read = copies.new.read } }
    ensures sound { IsSound copies.new }
    ensures noting { IsNoting copies.new.present copies.new.read reads.new.items (vec_capacity reads.new) }
    ensures front { (count : ℕ) → count ≤ length reads.old.items → take count reads.new.items ≡ take count reads.old.items }
    ensures grown { length reads.old.items ≤ length reads.new.items }
{
    if copies.is_read(word as usize) || copies.is_written(word as usize) {
        return;
    }
    copies.set_read(word as usize, true);
    reads.push_reserved(word);
}

/// Notes a word of a frame that is there as written, where it is not noted so.
pub fn note_written(copies: &mut FrameCopies, writes: &mut Vec<u64>, word: u64)
    requires there { get_or copies.old.present (word / FRAME_WORDS) false ≡ true }
    requires sound { IsSound copies.old }
    requires noting { IsNoting copies.old.present copies.old.written writes.old.items (vec_capacity writes.old) }
    ensures words { writes.new.items ≡ with_word word writes.old.items }
    ensures copies { copies.new ≡ record copies.old { written = copies.new.written } }
    ensures sound { IsSound copies.new }
    ensures noting { IsNoting copies.new.present copies.new.written writes.new.items (vec_capacity writes.new) }
    ensures front { (count : ℕ) → count ≤ length writes.old.items → take count writes.new.items ≡ take count writes.old.items }
    ensures grown { length writes.old.items ≤ length writes.new.items }
{
    if copies.is_written(word as usize) {
        return;
    }
    copies.set_written(word as usize, true);
    writes.push_reserved(word);
}

/// Puts back the bytes that were given for these words, and notes none as written.
pub fn take_back(copies: &mut FrameCopies, words: &[u64])
    requires sound { IsSound copies.old }
    requires there { AllThere copies.old.present words.now }
    requires tied { AreFlags copies.old.written words.now }
    requires beside { AreGivenBeside words.now copies.old.given copies.old.bytes }
    ensures copies { copies.new ≡ record copies.old { bytes = copies.old.given; written = no_flags (length copies.old.written) } }
    ensures sound { IsSound copies.new }
{
    for word in words {
        copies.restore_word(*word as usize);
        copies.set_written(*word as usize, false);
    }
}

/// Notes none of these words as read.
pub fn forget_reads(copies: &mut FrameCopies, words: &[u64])
    requires sound { IsSound copies.old }
    requires there { AllThere copies.old.present words.now }
    requires tied { AreFlags copies.old.read words.now }
    ensures copies { copies.new ≡ record copies.old { read = no_flags (length copies.old.read) } }
    ensures sound { IsSound copies.new }
{
    for word in words {
        copies.set_read(*word as usize, false);
    }
}

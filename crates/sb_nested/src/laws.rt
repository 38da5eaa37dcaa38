//! The laws of accesses: functions without a body, each of which states some. A bound on what is read, what a store writes, and
//! that a whole memory misses nothing.

ghost use Rattle.sb_nested.specs.Laws.{ReadsAtMost24, StoresAreOfBytes, StoresLeaveOtherBytes, StoresLeaveOtherFrames, EptMissesNothing, TranslationMissesNothing, BytesMissNothing};

/// A nested walk reads at most 24 words: five for each of four entries of the guest, and four for the last address.
pub fn at_most_24_words()
    ensures { ReadsAtMost24 }
{}

/// A store of whatever size is done byte by byte, from the lowest address up, each where its address leads for a write; none is
/// done where one of them leads nowhere. Every byte to which no address leads stays, and no frame comes or goes.
///
/// A whole word is not read before, and is written by one call; it is stored as its bytes would be.
pub fn stores_change_what_they_reach()
    ensures bytes { StoresAreOfBytes }
    ensures others { StoresLeaveOtherBytes }
    ensures same { StoresLeaveOtherFrames }
{}

/// Behind an EPT pointer to a table in a memory that has all its frames, no walk and no byte is refused for a missing frame.
pub fn whole_memories_miss_nothing()
    ensures ept { EptMissesNothing }
    ensures translation { TranslationMissesNothing }
    ensures byte { BytesMissNothing }
{}

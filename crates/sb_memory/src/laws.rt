//! The laws of words and of frames: functions without a body, each of which states some. Words do not disturb one another, and
//! neither do frames.

ghost use Rattle.sb_memory.specs.Laws.{WordsReadBack, OtherWordsStay, OtherBytesStay, FramesAreWhole, ReadsAreOfFrames, FramesKeepBytes, FramesKeepWords, FramesHavePages, ByteIsMadeInFrame, WordIsMadeInFrame, BytesAreMadeInFrame, ClearedFrameIsZero, ByteLeavesOtherFrames, WordLeavesOtherFrames, BytesLeaveOtherFrames, ClearingLeavesOtherFrames};

/// A word that is put at a place is read back there. Words at other multiples of 8 and all other bytes stay.
pub fn words_keep_apart()
    ensures read_back { WordsReadBack }
    ensures elsewhere { OtherWordsStay }
    ensures bytes { OtherBytesStay }
{}

/// The bytes of a memory, frame by frame. A read of a byte answers with one of its frame's, and a frame in which nothing is
/// changed keeps its bytes and its words. A frame that holds the bytes of a page has these bytes.
pub fn frames_hold_bytes()
    ensures length { FramesAreWhole }
    ensures read { ReadsAreOfFrames }
    ensures outside { FramesKeepBytes }
    ensures words { FramesKeepWords }
    ensures held { FramesHavePages }
{}

/// What is put into a frame is put into the bytes of that frame, at its place from the frame's start.
pub fn changes_are_made_in_frames()
    ensures byte { ByteIsMadeInFrame }
    ensures word { WordIsMadeInFrame }
    ensures bytes { BytesAreMadeInFrame }
    ensures cleared { ClearedFrameIsZero }
{}

/// What is put into a frame leaves all bytes of other frames, the number of bytes, and which frames are there.
pub fn changes_leave_other_frames()
    ensures byte { ByteLeavesOtherFrames }
    ensures word { WordLeavesOtherFrames }
    ensures bytes { BytesLeaveOtherFrames }
    ensures cleared { ClearingLeavesOtherFrames }
{}

//! That some memory shows a state.

ghost use Rattle.sb_shows.specs.Existence.{SomeMemoryShows};

/// Some memory of 530 to 8,192 frames shows a state of one process and one thread, though not a sound one: its trampoline pages
/// are zeros, and it has no text, pool or stack page.
pub fn some_memory_shows_a_state()
    ensures { SomeMemoryShows }
{}

//! Laws of the definitions: calls of them do nothing.

ghost use Rattle.sb_plain.specs.Start.{LoadsHaveSoundStarts};

/// A bundle that may be loaded starts from what makes a sound state: images within their windows, without VMFUNC's bytes in
/// texts and rewrite areas, entries in them, at most as many threads as the page tables serve, and key words.
pub fn loads_have_sound_starts()
    ensures { LoadsHaveSoundStarts }
{}

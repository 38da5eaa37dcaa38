//! The laws of stores: what a store does to the pages of a state.

ghost use Rattle.sb_state.specs.Laws.{StoredBytesStand, StoresLeaveOtherBytes};

/// A store puts the lowest bytes of its number, the lowest first, where its addresses led at entry: each is there afterwards,
/// unless a later address led there too. It changes no others: where none of its addresses leads, each byte of each page stays.
pub fn stores_change_what_they_reach()
    ensures bytes { StoredBytesStand }
    ensures others { StoresLeaveOtherBytes }
{}

//! What holds where a state is carried.

ghost use Rattle.sb_mapping.specs.Laws.{CarriedCanTake, PagesCarried};

/// What the code that adds pages asks holds where a state is carried, and what it leaves carries the state with the page.
pub fn pages_are_carried()
    ensures can_take { CarriedCanTake }
    ensures page { PagesCarried }
{}

//! What a memory in which a machine keeps a state shows, and what an instruction does there.

ghost use Rattle.sb_shows.specs.Laws.{AddressesStay, CoresAreThere, CoresSee, CoresStay, FetchesAlike, KeepsShows, PlacesStay, PlacesStayWhereSeen, StepsAlike, TranslationsStay, TranslationsStayWhereSeen};

use sb_memory::Phys;

/// Memory in which a machine keeps a state shows that state, and each core sees it. Where each thread is in a view, there are
/// words for the cores.
pub fn what_is_kept_is_shown()
    ensures shows { KeepsShows }
    ensures sees { CoresSee }
    ensures cores { CoresAreThere }
{}

/// An instruction does on a core what it does on plain memory, for every thread and view; what is fetched is the same; and each
/// translation of every thread and view stays as it was.
pub fn instructions_are_alike<P: Phys>()
    ensures steps { StepsAlike P.rule }
    ensures fetches { FetchesAlike P.rule }
    ensures translations { TranslationsStay P.rule }
{}

/// Between two memories in which states are kept, where each page and each view that was there is where it was, each translation
/// that gave an address gives the same; and each translation is the same, a refusal too, where the page that is seen is the same.
///
/// Where views stay and each thread is in the view in which it was, the words of the cores stay. By them, and by the entries of
/// lists as they stand in memory, both hold too of what each core sees.
pub fn what_stays_is_reached_as_before()
    ensures addresses { AddressesStay }
    ensures translations { TranslationsStayWhereSeen }
    ensures cores { CoresStay }
    ensures places { PlacesStay }
    ensures places_seen { PlacesStayWhereSeen }
{}

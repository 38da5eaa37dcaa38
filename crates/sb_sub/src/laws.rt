//! What a memory that stands for a state shows.

ghost use Rattle.sb_sub.specs.Translations.{RegisterStays, TranslationsKept};
ghost use Rattle.sb_sub.specs.Laws.{CarriedFindsPool, RegistersCarried, ServersServable, ServersStand, SoundStatesServable, StandsShows};

/// What stands for a state shows it, with the words of the cores.
pub fn what_is_stood_for_is_shown()
    ensures { StandsShows }
{}

/// Where a state is carried, the pool page of each process is found, and what register leaves carries the state with the server.
/// The same of what stands for a state: it stands for the state with the server. A sound state is servable, and stays so.
pub fn servers_are_carried()
    ensures finds_pool { CarriedFindsPool }
    ensures registers { RegistersCarried }
    ensures servable { SoundStatesServable }
    ensures server { ServersServable }
    ensures stands { ServersStand }
{}

/// Where what is seen stays in its frame, each address that leads to a place leads there afterwards.
pub fn translations_are_kept()
    ensures kept { TranslationsKept }
    ensures register { RegisterStays }
{}

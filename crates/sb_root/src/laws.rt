//! The laws of a root kernel between calls: functions without a body, each of which states some.

ghost use Rattle.sb_root.specs.Laws.{RootsStayStanding, ViewsStay, RightsStay, BookStays, OtherFramesAreFree, BasesAnswer, ViewsAnswer, SetIndicesLead, FreeIndicesAreUnbound, SetEntriesArePointers, SetEntriesLeadInside, BaseWalksReadBase, ViewWalksReadTables, SetWalksReadTables};

/// Under every change that leaves the frames of tables and lists alone, a root kernel stands as before, and the base and each
/// view answer as before. Frames that it does not use may be taken and given back.
pub fn roots_keep_apart()
    ensures stands { RootsStayStanding }
    ensures views { ViewsStay }
    ensures rights { RightsStay }
    ensures booked { BookStays }
    ensures book { OtherFramesAreFree }
{}

/// The base leads each root frame and each page from 512 on to itself, or nowhere, and 1000 to the home trampoline page, at all
/// times: what is exposed is read back from the entries of the shared tables.
pub fn base_answers()
    ensures { BasesAnswer }
{}

/// Each view answers as the base but for its four pages, at all times.
pub fn views_answer()
    ensures { ViewsAnswer }
{}

/// A switch by a thread's list leads to the view of an index that is set, and nowhere else. The pointer of such a view leads to
/// a table in the memory.
pub fn lists_lead_to_views()
    ensures set { SetIndicesLead }
    ensures free { FreeIndicesAreUnbound }
    ensures pointer { SetEntriesArePointers }
    ensures inside { SetEntriesLeadInside }
{}

/// A walk from the base reads words of the base's frames alone, and one from a view, listed or not, words of those and of its own
/// tables, also where it is refused.
pub fn walks_read_tables()
    ensures base { BaseWalksReadBase }
    ensures view { ViewWalksReadTables }
    ensures set { SetWalksReadTables }
{}

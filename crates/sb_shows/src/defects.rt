//! What memory never has where it shows a state.

ghost use Rattle.sb_shows.specs.Defects.{NoSecondPageInAFrame, NoEntryOfAnUnusedIndex, NoTableInSight, NoDataOfTheClient, NoPageIsWrittenAndFetched, NoCr3OfAnother};

/// No frame holds two pages: no two addresses lead to one frame where bytes of two pages are seen.
pub fn no_second_page_in_a_frame()
    ensures { NoSecondPageInAFrame }
{}

/// No entry of a list is set for an index that names no view.
pub fn no_entry_of_an_unused_index()
    ensures { NoEntryOfAnUnusedIndex }
{}

/// No frame of a page that is seen holds a table that a walk reads.
pub fn no_table_in_sight()
    ensures { NoTableInSight }
{}

/// No address in a server's view leads to data of the client.
pub fn no_data_of_the_client()
    ensures { NoDataOfTheClient }
{}

/// No page may be written and fetched, of the heap or elsewhere: not in one view, and not in two, at one address or at two.
pub fn no_page_is_written_and_fetched()
    ensures { NoPageIsWrittenAndFetched }
{}

/// No CR3 word is that of a thread with another home, where a machine keeps the state and that home has a pool page.
pub fn no_cr3_of_another()
    ensures { NoCr3OfAnother }
{}

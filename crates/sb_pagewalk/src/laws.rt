//! The laws of sets of tables: functions without a body, each of which states some. Sets do not disturb one another, and walks
//! through them are the same whoever makes them.

ghost use Rattle.sb_pagewalk.specs.Laws.{TablesStay, WalksStay, WalksAnswerAsSets, WalksReadSets};

/// Under every change that leaves the frames of a set alone, its tables stand as before, and every walk answers as before.
pub fn sets_keep_apart()
    ensures tables { TablesStay }
    ensures walks { WalksStay }
{}

/// A walk from any root page, by any reader that reads the words of a set there, answers as the set does in its own memory. It
/// reads entries of that page and of the tables of the set alone, also where it is refused.
pub fn walks_go_through_sets()
    ensures answer { WalksAnswerAsSets }
    ensures reads { WalksReadSets }
{}

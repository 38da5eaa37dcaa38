//! The text of memory and of the words of cores.

ghost use Rattle.sb_shows.specs.Dump.{DumpsOneMachine, DumpsShow};

/// A text is the dump of one memory and of the words of so many cores: no other has this text.
///
/// `shows` says that whoever reads a dump of a state, with a line for the core of each thread, finds memory that shows it.
pub fn a_dump_is_of_one_machine()
    ensures one { DumpsOneMachine }
    ensures shows { DumpsShow }
{}

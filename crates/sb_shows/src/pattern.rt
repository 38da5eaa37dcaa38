//! Where the cores may fetch the bytes of VMFUNC.

ghost use Rattle.sb_shows.specs.Pattern.{PatternIsAtTwoPlaces, PatternIsFetched};

/// Where memory shows a sound state, three consecutive addresses that a core's walk gives for fetch hold VMFUNC's bytes only at
/// `70000040`, in every view of every thread. They lead to physical `1040` at home and to `4040` in servers.
///
/// `there` says that in each view the bytes do stand at that address.
pub fn pattern_stands_at_two_places()
    ensures only { PatternIsAtTwoPlaces }
    ensures there { PatternIsFetched }
{}

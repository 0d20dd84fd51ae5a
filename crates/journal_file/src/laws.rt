//! Laws of the format. The functions do nothing: their contracts are the laws.
ghost use Rattle.journal_file.specs.Laws.{ReadsAFront, ReadsTheWritten, ReadsWhatWasSynced, ReadsNoZeros};
ghost use Rattle.journal_file.specs.Laws.{CutsNothingSynced, FindsDamage, RefusesWhatWasMoved, OpensNothingForeign};
ghost use Rattle.journal_file.specs.Laws.{OpensWhatACrashLeaves};

/// Of a file truncated anywhere, a prefix of its payloads is read.
pub fn reads_a_front()
    ensures { ReadsAFront }
{}

/// All payloads whose records are whole are read, whatever stands after them.
pub fn reads_the_written()
    ensures { ReadsTheWritten }
{}

/// All payloads that were synced are read, followed by a prefix of those that were being written, assuming no checksum
/// collision.
pub fn reads_what_was_synced()
    ensures { ReadsWhatWasSynced }
{}

/// No payload is read from zeros.
pub fn reads_no_zeros()
    ensures { ReadsNoZeros }
{}

/// Whatever is cut after the whole records lies after the synced data, as long as that is still there.
pub fn cuts_nothing_synced()
    ensures { CutsNothingSynced }
{}

/// A file is reported as damaged where any mark after its whole records says that it was synced beyond them, wherever
/// the mark stands.
pub fn finds_damage()
    ensures { FindsDamage }
{}

/// A file isn't opened where a mark after its whole records was written for another position.
pub fn refuses_what_was_moved()
    ensures { RefusesWhatWasMoved }
{}

/// A file without a whole record is opened only where it is the beginning of a journal.
pub fn opens_nothing_foreign()
    ensures { OpensNothingForeign }
{}

/// A file is opened after a crash that left the synced data, where each mark after the whole records stands at its
/// position and says no more than that.
pub fn opens_what_a_crash_leaves()
    ensures { OpensWhatACrashLeaves }
{}

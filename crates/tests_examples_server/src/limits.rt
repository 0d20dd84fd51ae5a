//! The limits of a replay and of an opening as numbers.
#![tactic(auto)]

ghost use Rattle.std.specs.Prelude.{◌≡◌};
ghost use Rattle.mds_script.specs.declared.gather.TheConstants.{LINE_LIMIT};
ghost use Rattle.mds_script.specs.declared.lines.TheConstants.{INPUT_LIMIT};
ghost use Rattle.mds_snapshot.specs.declared.opening.TheConstants.{READER_PLACES};

/// An input has at most a gibibyte, and a line of it two mebibytes.
pub fn limits_of_replays()
    ensures input { INPUT_LIMIT ≡ 1073741824 }
    ensures line { LINE_LIMIT ≡ 2097152 }
{}

/// One opening has at most 64 panes.
pub fn limits_of_openings()
    ensures panes { READER_PLACES ≡ 64 }
{}

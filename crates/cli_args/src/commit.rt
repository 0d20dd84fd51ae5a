//! The commit of the program's sources.

/// The commit of the program's sources, as git names it; empty where it isn't known.
pub const COMMIT: &str = "";

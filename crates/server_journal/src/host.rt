//! What the journal of a served city needs of the machine.

use journal_folder::Folders;
use std::alloc::AllocGlobal;
use std::io::Eprint;
use std::sync::Wait;
use std::time::Clock;

/// What reports the progress of a journal needs: memory and standard error, by a handle that can be copied.
pub trait ReportingHost: AllocGlobal + Eprint + Copy + Drop {}

impl ReportingHost for HostRuntime {}

/// What replaying a journal needs: in addition blocking waits.
pub trait ReplayHost: ReportingHost + Wait {}

impl<R: ReportingHost + Wait> ReplayHost for R {}

/// What a journal's files need: in addition to reports file operations by path, and the clock.
pub trait JournalHost: ReportingHost + Folders + Clock {}

impl JournalHost for HostRuntime {}

/// What compacting a journal needs: in addition blocking waits.
pub trait CompactorHost: JournalHost + Wait {}

impl<R: JournalHost + Wait> CompactorHost for R {}

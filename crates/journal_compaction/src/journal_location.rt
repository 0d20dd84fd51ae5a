//! The order in which a compacted journal takes the place of the old one.
ghost use Rattle.std.specs.Prelude.{◌≡◌, ◌⊎◌, map};
ghost use Rattle.mds_snapshot.specs.Opening.{book_of};
ghost use Rattle.journal_compaction.specs.Compaction.{IsThinned};
ghost use Rattle.journal_compaction.specs.declared.compaction.Counts.{Counts as Numbers};

use crate::compaction::{Counts, SourceJournal, compact};
use crate::fault::CompactFault;
use journal_file::Log;
use journal_folder::FolderFault;
use mds_snapshot::{Blank, OpeningName, prepare};
use std::alloc::Global;
use std::marker::Brand;
use std::sync::Wait;

/// Where a journal is, and another next to it: a folder of files, or memory in tests. A crash at any step leaves the
/// one or the other in its place, whole.
pub trait JournalLocation<L: Log> {
    ghost use Rattle.std.specs.Prelude.{[], IfOk, OnOk};

    /// Another journal than at first is in the place.
    ghost is_replaced: { Self → Type 0 };

    /// The journal in the place is archived, where it is to be.
    ghost is_archived: { Self → Type 0 };

    /// That it is compacted is recorded, and where it is archived.
    ghost is_recorded: { Self → Type 0 };

    /// Creates an empty log next to the journal.
    fn create_log(&mut self) -> Result<L, FolderFault>
        ensures empty { IfOk result (λ log. L.may_be log []) }
        ensures kept { is_replaced self.new → is_replaced self.old };

    /// Archives the journal in the place, where it is to be, and waits until that is synced.
    ///
    /// # Errors
    ///
    /// `NotArchived`, `Folder` where the journal can't be read, or `NoMemory`.
    fn archive(&mut self) -> Result<(), CompactFault>
        ensures archived { OnOk result (is_archived self.new) }
        ensures kept { is_replaced self.new → is_replaced self.old };

    /// Records next to the journal in the place that it is compacted, and under which name it is archived, and waits
    /// until that is synced.
    ///
    /// # Errors
    ///
    /// `NotWritten`, or `NoMemory`.
    fn record(&mut self) -> Result<(), CompactFault>
        requires { is_archived self.old }
        ensures recorded { OnOk result (is_recorded self.new) }
        ensures kept { is_replaced self.new → is_replaced self.old };

    /// Puts the log next to the journal into its place at once, and waits until that is synced.
    fn replace(&mut self) -> Result<(), FolderFault>
        requires { is_recorded self.old };
}

/// Compacts a journal in place, where both openings are named.
fn compact_both<P: JournalLocation<L>, K: OpeningName, O: OpeningName, L: Log, R: Wait>(
    rt: &R,
    alloc: Global,
    place: &mut P,
    old: &SourceJournal<'_>,
    one: Blank,
    other: Blank,
) -> Result<Counts, CompactFault>
    requires one { book_of one ≡ K.book }
    requires other { book_of other ≡ O.book }
    ensures { P.is_replaced place.new → P.is_replaced place.old
        ⊎ ((log : L) × L.is_synced log × (counts : Numbers)
        × IsThinned (L.may_be log) old.now.config.now old.now.at (map (λ t. t.items) old.now.texts.now) counts) }
{
    let mut log = place.create_log()?;
    let counts = compact::<K, O, L, R>(rt, alloc, old, &mut log, (one, other))?;
    drop(log);
    place.archive()?;
    place.record()?;
    place.replace()?;
    Ok(counts)
}

/// The same, where one opening is named. It names the other.
fn compact_named<P: JournalLocation<L>, K: OpeningName, L: Log, R: Wait>(
    rt: &R,
    alloc: Global,
    place: &mut P,
    old: &SourceJournal<'_>,
    one: Blank,
    other: Blank,
) -> Result<Counts, CompactFault>
    requires { book_of one ≡ K.book }
    ensures { P.is_replaced place.new → P.is_replaced place.old
        ⊎ ((log : L) × L.is_synced log × (counts : Numbers)
        × IsThinned (L.may_be log) old.now.config.now old.now.at (map (λ t. t.items) old.now.texts.now) counts) }
{
    compact_both::<P, K, Brand, L, R>(rt, alloc, place, old, one, other)
}

/// Compacts a journal in place: the compacted one is written next to it, synced and compared, and then put into its
/// place, once the old one is archived, where it is to be, and its compaction recorded.
///
/// # Errors
///
/// Those of `compact`, of which `NotWritten` is also where the compaction can't be recorded; `NotArchived`, and `Folder`
/// where the place can't be used. The old journal stays in its place, unless the last step failed: then it is only known
/// that one of the two journals is there.
pub fn compact_at<P: JournalLocation<L>, L: Log, R: Wait>(
    rt: &R,
    alloc: Global,
    place: &mut P,
    old: &SourceJournal<'_>,
) -> Result<Counts, CompactFault>
    ensures { P.is_replaced place.new → P.is_replaced place.old
        ⊎ ((log : L) × L.is_synced log × (counts : Numbers)
        × IsThinned (L.may_be log) old.now.config.now old.now.at (map (λ t. t.items) old.now.texts.now) counts) }
{
    let Ok(one) = prepare(alloc) else {
        return Err(CompactFault::NoMemory);
    };
    let Ok(other) = prepare(alloc) else {
        return Err(CompactFault::NoMemory);
    };
    compact_named::<P, Brand, L, R>(rt, alloc, place, old, one, other)
}

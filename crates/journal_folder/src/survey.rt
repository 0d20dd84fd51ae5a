//! A survey of a journal's bytes: its payloads, and how it ends.
ghost use Rattle.std.specs.Prelude.{◌≡◌, ℕ, List, map, drop, IfOk};
ghost use Rattle.journal_file.specs.Records.{Reads, extent};
ghost use Rattle.journal_file.specs.Endings.{ending_of};
ghost use Rattle.journal_file.specs.Groups.{listed};
ghost use Rattle.journal_folder.specs.Damages.{damage_of};

use crate::fault::Damage;
use journal_file::{JournalEnding, Record, ending_of, is_plain, read};
use std::alloc::{AllocError, Global};

/// What a journal's bytes are.
#[derive(Debug, Drop)]
pub struct Survey {
    /// The payloads of its records, without the marks.
    pub texts: Vec<Vec<u8>>,
    /// How many bytes its whole records take.
    pub whole: u64,
    /// How it ends after them.
    pub ending: JournalEnding,
}

/// What a journal's bytes are, with the payloads where they lie among them.
#[derive(Debug, Drop)]
pub struct LentSurvey<'a> {
    /// The payloads of its records, without the marks.
    pub texts: Vec<&'a [u8]>,
    /// How many bytes its whole records take.
    pub whole: u64,
    /// How it ends after them.
    pub ending: JournalEnding,
}

/// The payloads of the records that are no marks.
fn plain_texts<'a>(alloc: Global, records: &[Record<'a>]) -> Result<Vec<&'a [u8]>, AllocError>
    ensures { IfOk result (λ texts. map (λ t. t.now) texts.items ≡ listed (map (λ x. x.text.now) records.now)) }
{
    let mut texts = Vec::new(alloc);
    for record in records {
        if is_plain(record.text) {
            texts.push(record.text)?;
        }
    }
    Ok(texts)
}

/// Copies of payloads.
fn copies_of(alloc: Global, lent: &[&[u8]]) -> Result<Vec<Vec<u8>>, AllocError>
    ensures { IfOk result (λ texts. map (λ v. v.items) texts.items ≡ map (λ t. t.now) lent.now) }
{
    let mut texts = Vec::with_capacity(alloc, lent.len())?;
    for text in lent {
        texts.push(Vec::from_slice(alloc, text)?)?;
    }
    Ok(texts)
}

/// Surveys a journal's bytes without copying them. A torn tail is left where it stands.
///
/// # Errors
///
/// Out of memory.
pub fn lent_survey_of(alloc: Global, bytes: &[u8]) -> Result<LentSurvey<'_>, AllocError>
    ensures { IfOk result (λ survey. (all : List (List ℕ)) × Reads 0 bytes.now all
        × (map (λ t. t.now) survey.texts.items ≡ listed all) × (survey.whole ≡ extent all)
        × (survey.ending ≡ ending_of survey.whole (drop survey.whole bytes.now))) }
{
    let found = read(alloc, 0, bytes)?;
    Ok(LentSurvey {
        texts: plain_texts(alloc, &found.records)?,
        whole: found.whole as u64,
        ending: ending_of(found.whole as u64, &bytes[found.whole..]),
    })
}

/// Surveys a journal's bytes. A torn tail is left where it stands.
///
/// # Errors
///
/// Out of memory.
pub fn survey_of(alloc: Global, bytes: &[u8]) -> Result<Survey, AllocError>
    ensures { IfOk result (λ survey. (all : List (List ℕ)) × Reads 0 bytes.now all
        × (map (λ v. v.items) survey.texts.items ≡ listed all) × (survey.whole ≡ extent all)
        × (survey.ending ≡ ending_of survey.whole (drop survey.whole bytes.now))) }
{
    let lent = lent_survey_of(alloc, bytes)?;
    Ok(Survey {
        texts: copies_of(alloc, &lent.texts)?,
        whole: lent.whole,
        ending: lent.ending,
    })
}

/// What is wrong with a journal that ends so after this many whole bytes. Of the endings that are opened, only the one
/// that no kill of the program leaves is reported.
pub fn damage_of(whole: u64, ending: JournalEnding) -> Option<Damage>
    ensures { result ≡ damage_of whole ending }
{
    match ending {
        JournalEnding::Whole | JournalEnding::Torn => None,
        JournalEnding::Unexplained => Some(Damage::Unexplained(whole)),
        JournalEnding::Foreign(signature) => Some(Damage::Foreign(signature)),
        JournalEnding::Moved(place) => Some(Damage::Moved(place)),
        JournalEnding::Damaged(said) => Some(Damage::Lost(said)),
    }
}

//! How many samples there are of a rule, and in how many it was open.
ghost use Rattle.std.specs.Prelude.{◌≡◌, ◌++◌, codes, IfOk, string_bytes};
ghost use Rattle.std.specs.Fmt.{decimal};
ghost use Rattle.cli_report.specs.Counts.{all_behind, all_text, counts_of, open_words};

use crate::days::{DaySample, open_ones, violations};
use std::alloc::{AllocError, Global};

/// How many samples there are of a rule.
#[derive(Clone, Copy)]
pub(crate) struct SampleCounts {
    /// In how many it was violated.
    pub(crate) violated: u64,
    /// In how many it was open and is evaluated.
    pub(crate) judged: u64,
    /// How many there are.
    pub(crate) all: u64,
}

/// How many of these samples of a rule there are, and in how many it was open and violated.
///
/// # Errors
///
/// Out of memory.
pub(crate) fn counts_of(alloc: Global, samples: &[DaySample]) -> Result<SampleCounts, AllocError>
    ensures { IfOk result (λ counts. counts ≡ counts_of samples.now) }
{
    let violated = violations(alloc, samples)?;
    let judged = open_ones(alloc, samples)?;
    Ok(SampleCounts {
        violated: violated.len() as u64,
        judged: judged.len() as u64,
        all: samples.len() as u64,
    })
}

/// What samples in which a rule was open are called.
fn open_words(judged: u64) -> &'static str
    ensures { result.now ≡ open_words judged }
{
    if judged == 0 {
        " in which it was open and evaluated"
    } else {
        " in which it was open"
    }
}

/// The words for samples in which a rule was open, with how many there are in all; none where it was open in each.
fn all_text(alloc: Global, judged: u64, all: u64) -> Result<String, AllocError>
    ensures { IfOk result (λ text. string_bytes text ≡ all_text judged all) }
{
    if judged == all {
        return Ok(String::new(alloc));
    }
    let words = open_words(judged);
    format!(in alloc; "{words} ({all} in all)")
}

/// What stands behind the number of samples in which a rule was open: how many there are in all, where these are more.
///
/// # Errors
///
/// Out of memory.
pub(crate) fn all_behind(alloc: Global, counts: &SampleCounts) -> Result<String, AllocError>
    ensures { IfOk result (λ text. string_bytes text ≡ all_behind counts.now) }
{
    all_text(alloc, counts.judged, counts.all)
}

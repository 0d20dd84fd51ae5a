//! Copies of the payloads appended after a log end, for a compacted log that is to take the log's place.
ghost use Rattle.std.specs.Prelude.{◌≡◌, ◌&&◌, ◌++◌, [], ℕ, List, map, true, false, OnOk};
ghost use Rattle.journal_file.specs.declared.log_end.LogEnd.{LogEnd as Known};

use journal_file::LogEnd;
use std::alloc::{AllocError, Global};

/// The most bytes of payloads of which copies are kept.
const MOST_BUFFERED: u64 = 8_388_608;

/// Copies of the payloads appended after a log end, while they are kept.
#[derive(Drop)]
pub(crate) struct CatchUpBuffer {
    pub(crate) is_keeping: bool,
    pub(crate) seal: LogEnd,
    pub(crate) texts: Vec<Vec<u8>>,
    bytes: u64,
}

impl CatchUpBuffer {
    /// No copies are kept.
    pub(crate) fn new_idle(alloc: Global) -> CatchUpBuffer
        ensures { result.is_keeping ≡ false }
    {
        CatchUpBuffer {
            is_keeping: false,
            seal: LogEnd::of_empty_log(),
            texts: Vec::new(alloc),
            bytes: 0,
        }
    }

    /// Whether copies are kept of what is appended after this log end.
    pub(crate) fn is_behind(&self, seal: LogEnd) -> bool
        ensures { result ≡ true → (self.now.is_keeping ≡ true) × (self.now.seal ≡ seal) }
    {
        self.is_keeping && self.seal == seal
    }

    /// Drops the copies, and keeps none any more.
    pub(crate) fn forget(&mut self)
        ensures { self.new.is_keeping ≡ false }
    {
        self.is_keeping = false;
        self.texts.clear();
        self.bytes = 0;
    }

    /// Keeps copies of what is appended after this log end, from now on.
    pub(crate) fn begin(&mut self, seal: LogEnd)
        ensures seal { self.new.seal ≡ seal }
        ensures nothing { self.new.texts.items ≡ [] }
    {
        self.is_keeping = true;
        self.seal = seal;
        self.texts.clear();
        self.bytes = 0;
    }

    /// Appends copies of the payloads.
    fn copy(&mut self, alloc: Global, texts: &[Vec<u8>]) -> Result<(), AllocError>
        ensures copied { OnOk result (map (λ v. v.items) self.new.texts.items ≡ map (λ v. v.items) self.old.texts.items ++ map (λ v. v.items) texts.now) }
        ensures keeping { self.new.is_keeping ≡ self.old.is_keeping }
        ensures seal { self.new.seal ≡ self.old.seal }
    {
        for text in texts {
            self.texts.push(Vec::from_slice(alloc, text)?)?;
            self.bytes = self.bytes.saturating_add(text.len() as u64);
        }
        Ok(())
    }

    /// Keeps copies of payloads that were appended, where those before are kept. Where they are too many, or out of
    /// memory, none are kept any more.
    pub(crate) fn add(&mut self, alloc: Global, texts: &[Vec<u8>])
        ensures { self.new.is_keeping ≡ true → (self.old.is_keeping ≡ true) × (self.new.seal ≡ self.old.seal)
            × (map (λ v. v.items) self.new.texts.items ≡ map (λ v. v.items) self.old.texts.items ++ map (λ v. v.items) texts.now) }
    {
        if !self.is_keeping {
            return;
        }
        if self.copy(alloc, texts).is_err() || self.bytes > MOST_BUFFERED {
            self.forget();
        }
    }
}

//! A file with its entity tag.
ghost use Rattle.std.specs.Prelude.{◌≡◌, IfOk};
ghost use Rattle.server_page.specs.File.{text_of};
ghost use Rattle.server_page.specs.Tag.{tag_of};

use crate::file::File;
use crate::tag::tag_of;
use std::alloc::{AllocError, Global};

/// A file with its entity tag.
#[derive(Drop)]
pub(crate) struct TaggedFile {
    pub(crate) file: File,
    pub(crate) tag: Vec<u8>,
    ghost tagged: { tag.items ≡ tag_of (text_of file) },
}

impl TaggedFile {
    /// This file with its tag.
    ///
    /// # Errors
    ///
    /// Out of memory.
    pub(crate) fn new(alloc: Global, file: File) -> Result<TaggedFile, AllocError>
        ensures { IfOk result (λ leaf. leaf.file ≡ file) }
    {
        Ok(TaggedFile {
            file,
            tag: tag_of(alloc, file.text().as_bytes())?,
        })
    }
}

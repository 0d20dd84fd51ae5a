//! The page: its files with their tags.
ghost use Rattle.std.specs.Prelude.{◌≡◌, map, IfOk};
ghost use Rattle.server_page.specs.File.{files};
ghost use Rattle.server_page.specs.PageSettings.{IsMadeOf, bytes_of};
ghost use Rattle.server_page.specs.Tag.{tag_of};

use crate::file::{FILES, File};
use crate::page_settings::PageSettings;
use crate::tagged_file::TaggedFile;
use bytes::Bytes;
use std::alloc::{AllocError, Global};

/// The page's files, each with its tag, and what a configuration makes of them.
#[derive(Drop)]
pub struct Page {
    pub(crate) settings: PageSettings,
    leaves: Vec<TaggedFile>,
    ghost whole: { map (λ leaf. leaf.file) leaves.items ≡ files },
}

impl Page {
    /// The page with this configuration, and with the hash of each file's bytes as its tag. It is made once, since that
    /// reads them all.
    ///
    /// # Errors
    ///
    /// Out of memory.
    pub fn new(alloc: Global, configuration: &[u8]) -> Result<Page, AllocError>
        ensures { IfOk result (λ page. IsMadeOf configuration.now page.settings) }
    {
        Ok(Page {
            settings: PageSettings::new(alloc, configuration)?,
            leaves: tag_files(alloc, &FILES)?,
        })
    }

    /// A file with its tag.
    fn tagged_file(&self, file: File) -> &TaggedFile
        ensures { result.now.file ≡ file }
    {
        let index = file.index();
        &self.leaves[index]
    }

    /// The tag of a file.
    pub(crate) fn tag(&self, file: File) -> &[u8]
        ensures { result.now ≡ tag_of (bytes_of self.now.settings file) }
    {
        match file {
            File::SettingsJson => self.settings.tag.as_slice(),
            _ => self.tagged_file(file).tag.as_slice(),
        }
    }

    /// The bytes of a file.
    ///
    /// # Errors
    ///
    /// Out of memory.
    pub(crate) fn bytes(&self, alloc: Global, file: File) -> Result<Bytes, AllocError>
        ensures { IfOk result (λ bytes. bytes ≡ bytes_of self.now.settings file) }
    {
        match file {
            File::SettingsJson => {
                let text = Vec::from_slice(alloc, self.settings.text.as_slice())?;
                Ok(Bytes::from_vec(text)?)
            }
            _ => Ok(Bytes::from_static(file.text().as_bytes())),
        }
    }
}

/// Files with their tags, in their order.
fn tag_files(alloc: Global, files: &[File]) -> Result<Vec<TaggedFile>, AllocError>
    ensures { IfOk result (λ leaves. map (λ leaf. leaf.file) leaves.items ≡ files.now) }
{
    let mut leaves = Vec::new(alloc);
    for file in files {
        leaves.push(TaggedFile::new(alloc, *file)?)?;
    }
    Ok(leaves)
}

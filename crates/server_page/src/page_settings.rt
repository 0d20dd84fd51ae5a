//! What a configuration makes of the page.
ghost use Rattle.std.specs.Prelude.{◌≡◌, IfOk};
ghost use Rattle.server_page.specs.Tag.{tag_of};

use crate::file::File;
use crate::tag::tag_of;
use server_settings::{content_policy, settings_text};
use std::alloc::{AllocError, Global};

/// What a configuration makes of the page: the text of its settings with the tag of that, and the content policy of its
/// files.
#[derive(Drop)]
pub struct PageSettings {
    pub(crate) text: Vec<u8>,
    pub(crate) policy: Vec<u8>,
    pub(crate) tag: Vec<u8>,
    ghost tagged: { tag.items ≡ tag_of text.items },
}

impl PageSettings {
    ghost use Rattle.server_settings.specs.Settings.{settings_of};
    ghost use Rattle.server_page.specs.PageSettings.{IsMadeOf, text_for};

    /// The text of the settings.
    fn text_for(alloc: Global, configuration: &[u8]) -> Result<Vec<u8>, AllocError>
        ensures { IfOk result (λ text. text.items ≡ text_for (settings_of configuration.now)) }
    {
        match settings_text(alloc, configuration)? {
            Some(text) => Ok(text),
            None => Vec::from_slice(alloc, File::SettingsJson.text().as_bytes()),
        }
    }

    /// What this configuration makes of the page.
    ///
    /// # Errors
    ///
    /// Out of memory.
    pub(crate) fn new(alloc: Global, configuration: &[u8]) -> Result<PageSettings, AllocError>
        ensures { IfOk result (IsMadeOf configuration.now) }
    {
        let text = PageSettings::text_for(alloc, configuration)?;
        let tag = tag_of(alloc, text.as_slice())?;
        Ok(PageSettings {
            text,
            policy: content_policy(alloc, configuration)?,
            tag,
        })
    }
}

//! The title of the page, which is the city's.
ghost use Rattle.std.specs.Prelude.{◌≡◌, option_map, string_bytes, IfOk};
ghost use Rattle.mds_text.specs.View.{view};
ghost use Rattle.server_settings.specs.Settings.{page_of, page_title, title_of};

use crate::settings::page_of;
use mds_text::{TextFault, Tree, read_tree};
use std::alloc::{AllocError, Global};

/// The title in a configuration's document.
fn title_in(configuration: &Tree) -> Option<&str>
    ensures { option_map (λ s. s.now) result ≡ title_of (page_of (view configuration.now)) }
{
    match page_of(configuration) {
        Some(settings) => settings.title,
        None => None,
    }
}

/// The same, as a text of its own.
fn title_for(alloc: Global, configuration: &Tree) -> Result<Option<String>, AllocError>
    ensures { IfOk result (λ title. option_map string_bytes title ≡ title_of (page_of (view configuration.now))) }
{
    match title_in(configuration) {
        Some(title) => Ok(Some(String::from_str(alloc, title)?)),
        None => Ok(None),
    }
}

/// The title of the page with this configuration, where it has one: 1 to 100 characters.
///
/// # Errors
///
/// Out of memory.
pub fn page_title(alloc: Global, configuration: &[u8]) -> Result<Option<String>, AllocError>
    ensures { IfOk result (λ title. option_map string_bytes title ≡ page_title configuration.now) }
{
    match read_tree(alloc, configuration) {
        Ok(tree) => title_for(alloc, &tree),
        Err(TextFault::NoMemory) => Err(AllocError),
        Err(_) => Ok(None),
    }
}

//! What is wrong with the member `page` of a configuration.
ghost use Rattle.std.specs.Prelude.{◌≡◌, IfOk, is_some, map, option_map};
ghost use Rattle.mds_text.specs.Tree.{members_of};
ghost use Rattle.mds_text.specs.View.{member_view, view};
ghost use Rattle.server_settings.specs.Faults.{
  fault_at,
  fault_in,
  fault_of,
  fault_wording,
  is_null,
  is_wrong,
  page_fault,
};

use crate::first_view::view_in;
use crate::settings::{
    MOST_ATTRIBUTION, MOST_TITLE, caption_in, find_member, members_in, tiles_in,
};
use mds_text::{Member, TextFault, Tree, read_tree};
use std::alloc::{AllocError, Global};

/// What is wrong with the value of the member `page`.
#[derive(Clone, Copy, Debug, PartialEq, Eq)]
pub enum PageFault {
    /// It is neither an object nor null.
    NoObject,
    /// Its `title` is no text of 1 to 100 characters.
    Title,
    /// Its `view` is no view.
    View,
    /// Its `tiles` are no address of map tiles.
    Tiles,
    /// Its `attribution` is no text of 1 to 200 characters.
    Attribution,
}

impl PageFault {
    /// The rest of a message, after the member's name.
    pub fn words(self) -> &'static str
        ensures { result.now ≡ fault_wording self }
    {
        match self {
            PageFault::NoObject => ": no object",
            PageFault::Title => ".title: no text of 1 to 100 characters",
            PageFault::View =>
                ".view: no object with lat from -90 to 90, lng from -180 to 180 and a whole zoom from 0 to 22",
            PageFault::Tiles => ".tiles: no address as https://HOST/{z}/{x}/{y}.png",
            PageFault::Attribution => ".attribution: no text of 1 to 200 characters",
        }
    }
}

/// Whether a part is there, where null counts as absent, and isn't read.
fn is_wrong(value: Option<&Tree>, is_read: bool) -> bool
    ensures { result ≡ is_wrong (option_map (λ t. view t.now) value.entry) is_read }
{
    match value {
        None | Some(Tree::Null) => false,
        Some(_) => !is_read,
    }
}

/// The first part that is wrong.
fn fault_in(members: &[Member]) -> Option<PageFault>
    ensures { result ≡ fault_in (members_of (map member_view members.now)) }
{
    let title = find_member(members, "title");
    let view = find_member(members, "view");
    let tiles = find_member(members, "tiles");
    let attribution = find_member(members, "attribution");
    if is_wrong(title, caption_in(title, MOST_TITLE).is_some()) {
        Some(PageFault::Title)
    } else if is_wrong(view, view_in(view).is_some()) {
        Some(PageFault::View)
    } else if is_wrong(tiles, tiles_in(tiles).is_some()) {
        Some(PageFault::Tiles)
    } else if is_wrong(
        attribution,
        caption_in(attribution, MOST_ATTRIBUTION).is_some(),
    ) {
        Some(PageFault::Attribution)
    } else {
        None
    }
}

/// Whether a value is null.
fn is_null(value: &Tree) -> bool
    ensures { result ≡ is_null (view value.now) }
{
    matches!(value, Tree::Null)
}

/// What is wrong with a value.
fn fault_of(value: &Tree) -> Option<PageFault>
    ensures { result ≡ fault_of (view value.now) }
{
    if is_null(value) {
        return None;
    }
    match members_in(value) {
        Some(members) => fault_in(members),
        None => Some(PageFault::NoObject),
    }
}

/// What is wrong with the member `page` of a configuration's document.
fn fault_at(configuration: &Tree) -> Option<PageFault>
    ensures { result ≡ fault_at (view configuration.now) }
{
    fault_of(find_member(members_in(configuration)?, "page")?)
}

/// What is wrong with the member `page` of a configuration: the first part that is there, where null counts as absent,
/// and isn't what it has to be. Nothing is where there is no such member, nor in a text that is no JSON.
///
/// # Errors
///
/// Out of memory.
pub fn page_fault(alloc: Global, configuration: &[u8]) -> Result<Option<PageFault>, AllocError>
    ensures { IfOk result (λ fault. fault ≡ page_fault configuration.now) }
{
    match read_tree(alloc, configuration) {
        Ok(tree) => Ok(fault_at(&tree)),
        Err(TextFault::NoMemory) => Err(AllocError),
        Err(_) => Ok(None),
    }
}

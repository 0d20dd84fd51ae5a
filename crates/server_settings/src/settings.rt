//! What the member `page` of a configuration says.
ghost use Rattle.std.specs.Prelude.{◌≡◌, length, filter, map, option_map};
ghost use Rattle.mds_text.specs.Fields.{find_member};
ghost use Rattle.mds_text.specs.Tree.{members_of};
ghost use Rattle.mds_text.specs.View.{member_view, view};
ghost use Rattle.server_settings.specs.Settings.{
  begins_char,
  caption_in,
  given,
  given_in,
  is_caption,
  members_in,
  page_in,
  page_of,
  tiles_in,
};

use crate::address::is_address;
use crate::first_view::{FirstView, view_in};
use mds_text::{Member, Tree};

/// The most characters of a title.
pub(crate) const MOST_TITLE: usize = 100;

/// The most characters of an attribution.
pub(crate) const MOST_ATTRIBUTION: usize = 200;

/// What a configuration says of the page.
#[derive(Clone, Copy)]
pub(crate) struct Settings<'t> {
    pub(crate) title: Option<&'t str>,
    pub(crate) view: Option<FirstView>,
    pub(crate) tiles: Option<&'t str>,
    pub(crate) attribution: Option<&'t str>,
}

/// The first member of this name.
pub(crate) fn find_member<'t>(members: &'t [Member], name: &str) -> Option<&'t Tree>
    ensures { option_map (λ t. view t.now) result ≡ find_member name.now (members_of (map member_view members.now)) }
{
    for member in members {
        if member.name.as_str() == name {
            return Some(&member.value);
        }
    }
    None
}

/// The members of an object.
pub(crate) fn members_in(value: &Tree) -> Option<&[Member]>
    ensures { option_map (λ ms. members_of (map member_view ms.now)) result ≡ members_in (view value.now) }
{
    match value {
        Tree::Object(members) => Some(members),
        _ => None,
    }
}

/// Whether a byte begins a character of UTF-8.
fn begins_char(byte: u8) -> bool
    ensures { result ≡ begins_char byte }
{
    !(128 <= byte && byte <= 191)
}

/// How many characters a text has.
fn char_count(text: &[u8]) -> usize
    ensures { result ≡ length (filter begins_char text.now) }
{
    text.iter().filter(|byte| begins_char(**byte)).count()
}

/// Whether a text has one character or more, and at most so many.
fn is_caption(text: &str, most: usize) -> bool
    ensures { result ≡ is_caption most text.now }
{
    !text.is_empty() && char_count(text.as_bytes()) <= most
}

/// A text of at most so many characters.
pub(crate) fn caption_in(value: Option<&Tree>, most: usize) -> Option<&str>
    ensures { option_map (λ s. s.now) result ≡ caption_in most (option_map (λ t. view t.now) value.entry) }
{
    match value {
        Some(Tree::Text(text)) if is_caption(text.as_str(), most) => Some(text.as_str()),
        _ => None,
    }
}

/// An address of map tiles.
pub(crate) fn tiles_in(value: Option<&Tree>) -> Option<&str>
    ensures { option_map (λ s. s.now) result ≡ tiles_in (option_map (λ t. view t.now) value.entry) }
{
    match value {
        Some(Tree::Text(text)) if is_address(text.as_str().as_bytes()) => Some(text.as_str()),
        _ => None,
    }
}

/// What these members say.
fn settings_in(members: &[Member]) -> Settings<'_>
    ensures { given result ≡ given_in (members_of (map member_view members.now)) }
{
    Settings {
        title: caption_in(find_member(members, "title"), MOST_TITLE),
        view: view_in(find_member(members, "view")),
        tiles: tiles_in(find_member(members, "tiles")),
        attribution: caption_in(find_member(members, "attribution"), MOST_ATTRIBUTION),
    }
}

/// What the value of `page` says.
fn page_in(value: Option<&Tree>) -> Option<Settings<'_>>
    ensures { option_map given result ≡ page_in (option_map (λ t. view t.now) value.entry) }
{
    Some(settings_in(members_in(value?)?))
}

/// What a configuration says of the page; `None` where its member `page` is no object.
pub(crate) fn page_of(configuration: &Tree) -> Option<Settings<'_>>
    ensures { option_map given result ≡ page_of (view configuration.now) }
{
    page_in(find_member(members_in(configuration)?, "page"))
}

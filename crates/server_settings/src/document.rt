//! The text that the page reads.
ghost use Rattle.std.specs.Prelude.{◌≡◌, ◌++◌, codes, map, option_map, IfOk, OnOk};
ghost use Rattle.mds_text.specs.Tree.{object, members_of, text};
ghost use Rattle.mds_text.specs.View.{member_view, view};
ghost use Rattle.server_settings.specs.Settings.{given, given_members, named, page_of, settings_of, text_of, view_json};

use crate::first_view::FirstView;
use crate::settings::{Settings, page_of};
use mds_text::{
    Member, TextFault, Tree, add_member, int_tree, object_tree, print_tree, read_tree, text_tree,
};
use std::alloc::{AllocError, Global};

/// A view, as the page reads it.
fn view_tree(alloc: Global, first: FirstView) -> Result<Tree, AllocError>
    ensures { IfOk result (λ t. view t ≡ view_json first) }
{
    let mut members = Vec::new(alloc);
    add_member(&mut members, "lat", Tree::Degrees(first.lat))?;
    add_member(&mut members, "lng", Tree::Degrees(first.lng))?;
    add_member(&mut members, "zoom", int_tree(i64::from(first.zoom)))?;
    Ok(object_tree(members))
}

/// Adds a member with a text, if there is one.
fn add_text(
    members: &mut Vec<Member>,
    alloc: Global,
    name: &str,
    value: Option<&str>,
) -> Result<(), AllocError>
    ensures { OnOk result (map member_view members.new.items
        ≡ map member_view members.old.items ++ named name.now (option_map (λ s. text s.now) value.entry)) }
{
    match value {
        Some(value) => add_member(members, name, text_tree(alloc, value)?),
        None => Ok(()),
    }
}

/// Adds the view, if there is one.
fn add_view(
    members: &mut Vec<Member>,
    alloc: Global,
    first: Option<FirstView>,
) -> Result<(), AllocError>
    ensures { OnOk result (map member_view members.new.items
        ≡ map member_view members.old.items ++ named (codes "view") (option_map view_json first)) }
{
    match first {
        Some(first) => add_member(members, "view", view_tree(alloc, first)?),
        None => Ok(()),
    }
}

/// The document that the page reads.
fn settings_tree(alloc: Global, settings: &Settings<'_>) -> Result<Tree, AllocError>
    ensures { IfOk result (λ t. view t ≡ object (members_of (given_members (given settings.now)))) }
{
    let mut members = Vec::new(alloc);
    add_text(&mut members, alloc, "city", settings.title)?;
    add_view(&mut members, alloc, settings.view)?;
    add_text(&mut members, alloc, "tiles", settings.tiles)?;
    add_text(&mut members, alloc, "attribution", settings.attribution)?;
    Ok(object_tree(members))
}

/// The text of these settings.
fn text_of(alloc: Global, settings: &Settings<'_>) -> Result<Vec<u8>, AllocError>
    ensures { IfOk result (λ t. t.items ≡ text_of (given settings.now)) }
{
    print_tree(alloc, &settings_tree(alloc, settings)?)
}

/// The text for a configuration's document.
fn text_for(alloc: Global, configuration: &Tree) -> Result<Option<Vec<u8>>, AllocError>
    ensures { IfOk result (λ t. option_map (λ v. v.items) t ≡ option_map text_of (page_of (view configuration.now))) }
{
    match page_of(configuration) {
        Some(settings) => Ok(Some(text_of(alloc, &settings)?)),
        None => Ok(None),
    }
}

/// The text that the page reads, where a configuration has a member `page` that is an object.
///
/// # Errors
///
/// Out of memory.
pub fn settings_text(alloc: Global, configuration: &[u8]) -> Result<Option<Vec<u8>>, AllocError>
    ensures { IfOk result (λ t. option_map (λ v. v.items) t ≡ option_map text_of (settings_of configuration.now)) }
{
    match read_tree(alloc, configuration) {
        Ok(tree) => text_for(alloc, &tree),
        Err(TextFault::NoMemory) => Err(AllocError),
        Err(_) => Ok(None),
    }
}

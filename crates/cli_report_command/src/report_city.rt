//! What a report says of its city: its title and its zone.
ghost use Rattle.std.specs.Prelude.{◌≡◌, [], codes, option_map, string_bytes, unwrap_or, IfOk};
ghost use Rattle.mds_text.specs.View.{view};
ghost use Rattle.cli_documents.specs.Members.{text_named};
ghost use Rattle.server_settings.specs.Settings.{page_title};
ghost use Rattle.cli_report_command.specs.Zones.{zone_in, zone_read, zone_text, zone_words};

use crate::report_zone::{zone_text, zone_words};
use cli_documents::text_member;
use mds_text::{TextFault, Tree, read_tree};
use server_settings::page_title;
use std::alloc::{AllocError, Global};

/// What a report says of its city.
#[derive(Drop)]
pub struct ReportCity {
    /// Its title; empty where the configuration has none.
    pub title: String,
    /// Its zone in words, as bytes of UTF-8, by its name where the configuration has one.
    pub zone: Vec<u8>,
}

/// The title in a configuration's text; empty where it has none.
fn title_in(alloc: Global, text: &[u8]) -> Result<String, AllocError>
    ensures { IfOk result (λ title. string_bytes title ≡ unwrap_or (page_title text.now) []) }
{
    match page_title(alloc, text)? {
        Some(title) => Ok(title),
        None => Ok(String::new(alloc)),
    }
}

/// The zone's rule in a configuration's document; empty where it has none.
fn rule_in(document: &Tree) -> &str
    ensures { result.now ≡ unwrap_or (text_named (codes "zone") (view document.now)) [] }
{
    match text_member(document, "zone") {
        Some(rule) => rule,
        None => "",
    }
}

/// The zone of a configuration's text, in which a rule stands in the place of a name, in words.
fn words_in(alloc: Global, text: &[u8]) -> Result<Vec<u8>, AllocError>
    ensures { IfOk result (λ words. words.items ≡ zone_words (zone_in text.now)) }
{
    match read_tree(alloc, text) {
        Ok(document) => zone_words(alloc, rule_in(&document)),
        Err(TextFault::NoMemory) => Err(AllocError),
        Err(_) => zone_words(alloc, ""),
    }
}

/// The zone of a configuration's text, in which a rule stands in the place of this name.
fn zone_in(alloc: Global, name: Option<&str>, text: &[u8]) -> Result<Vec<u8>, AllocError>
    ensures { IfOk result (λ zone. zone.items
        ≡ zone_text (option_map (λ s. s.now) name.entry) (zone_words (zone_in text.now))) }
{
    let words = words_in(alloc, text)?;
    zone_text(alloc, name, &words)
}

/// What a report says of the city of a configuration's text, in which a rule stands in the place of the zone's name.
///
/// # Errors
///
/// Memory ran out.
pub fn city_of(alloc: Global, zone: Option<&str>, text: &[u8]) -> Result<ReportCity, AllocError>
    ensures title { IfOk result (λ city. string_bytes city.title ≡ unwrap_or (page_title text.now) []) }
    ensures zone { IfOk result (λ city. city.zone.items
        ≡ zone_text (option_map (λ s. s.now) zone.entry) (zone_words (zone_in text.now))) }
{
    Ok(ReportCity {
        title: title_in(alloc, text)?,
        zone: zone_in(alloc, zone, text)?,
    })
}

//! The files of the page.
ghost use Rattle.std.specs.Prelude.{◌≡◌, IsTrue, MatchOption, slice_get};
ghost use Rattle.http_header.specs.FieldValue.{is_visible_text};
ghost use Rattle.server_page.specs.File.{IsNoFile, file_at, files, path_of, text_of, type_of};

use crate::texts;

/// A file of the page.
#[derive(Clone, Copy, Debug, PartialEq, Eq)]
pub enum File {
    /// `/`, which is `index.html`
    IndexHtml,
    /// `/page.css`
    PageCss,
    /// `/author.js`
    AuthorJs,
    /// `/cards.js`
    CardsJs,
    /// `/dom.js`
    DomJs,
    /// `/fleet.js`
    FleetJs,
    /// `/geometry.js`
    GeometryJs,
    /// `/layers.js`
    LayersJs,
    /// `/map.js`
    MapJs,
    /// `/page.js`
    PageJs,
    /// `/rules.js`
    RulesJs,
    /// `/server.js`
    ServerJs,
    /// `/settings.json`
    SettingsJson,
    /// `/state.js`
    StateJs,
    /// `/zone.js`
    ZoneJs,
}

/// The files of the page.
pub const FILES: [File; 15] = [
    File::IndexHtml,
    File::PageCss,
    File::AuthorJs,
    File::CardsJs,
    File::DomJs,
    File::FleetJs,
    File::GeometryJs,
    File::LayersJs,
    File::MapJs,
    File::PageJs,
    File::RulesJs,
    File::ServerJs,
    File::SettingsJson,
    File::StateJs,
    File::ZoneJs,
];

impl File {
    /// The file at a path, given without its query; none, where the page has no file at the path.
    pub fn at(path: &[u8]) -> Option<File>
        ensures value { result ≡ file_at path.now }
        ensures at { MatchOption result (IsNoFile path.now) (λ file. path_of file ≡ path.now) }
    {
        first_at(path)
    }

    /// Its index among the files.
    pub(crate) fn index(self) -> usize
        ensures { slice_get files result ≡ Some self }
    {
        self as usize
    }

    /// Its path.
    pub fn path(self) -> &'static str
        ensures { result.now ≡ path_of self }
    {
        match self {
            File::IndexHtml => "/",
            File::PageCss => "/page.css",
            File::AuthorJs => "/author.js",
            File::CardsJs => "/cards.js",
            File::DomJs => "/dom.js",
            File::FleetJs => "/fleet.js",
            File::GeometryJs => "/geometry.js",
            File::LayersJs => "/layers.js",
            File::MapJs => "/map.js",
            File::PageJs => "/page.js",
            File::RulesJs => "/rules.js",
            File::ServerJs => "/server.js",
            File::SettingsJson => "/settings.json",
            File::StateJs => "/state.js",
            File::ZoneJs => "/zone.js",
        }
    }

    /// Its media type.
    pub fn media_type(self) -> &'static str
        ensures value { result.now ≡ type_of self }
        ensures visible { IsTrue (is_visible_text result.now) }
    {
        match self {
            File::IndexHtml => "text/html; charset=utf-8",
            File::PageCss => "text/css; charset=utf-8",
            File::AuthorJs
            | File::CardsJs
            | File::DomJs
            | File::FleetJs
            | File::GeometryJs
            | File::LayersJs
            | File::MapJs
            | File::PageJs
            | File::RulesJs
            | File::ServerJs
            | File::StateJs
            | File::ZoneJs => "text/javascript; charset=utf-8",
            File::SettingsJson => "application/json",
        }
    }

    /// Its text.
    pub fn text(self) -> &'static str
        ensures { result.now ≡ text_of self }
    {
        match self {
            File::IndexHtml => texts::INDEX_HTML,
            File::PageCss => texts::PAGE_CSS,
            File::AuthorJs => texts::AUTHOR_JS,
            File::CardsJs => texts::CARDS_JS,
            File::DomJs => texts::DOM_JS,
            File::FleetJs => texts::FLEET_JS,
            File::GeometryJs => texts::GEOMETRY_JS,
            File::LayersJs => texts::LAYERS_JS,
            File::MapJs => texts::MAP_JS,
            File::PageJs => texts::PAGE_JS,
            File::RulesJs => texts::RULES_JS,
            File::ServerJs => texts::SERVER_JS,
            File::SettingsJson => texts::SETTINGS_JSON,
            File::StateJs => texts::STATE_JS,
            File::ZoneJs => texts::ZONE_JS,
        }
    }
}

/// The first file with a path.
fn first_at(path: &[u8]) -> Option<File>
    ensures { result ≡ file_at path.now }
{
    FILES
        .iter()
        .copied()
        .find(|file| file.path().as_bytes() == path)
}

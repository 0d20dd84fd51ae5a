//! What `import` and `export` ask for.
ghost use Rattle.std.specs.Prelude.{◌≡◌, ◌≤◌, ◌<◌, ◌∷◌, [], length, map, codes, string_bytes, option_map, IsTrue, if◌then◌else◌, Some, None};
ghost use Rattle.cli_args.specs.Transfers.{policies, status, is_dry, token_source, place_in, dry_with, destination_in, sent_by, import_of, export_of, errand_of, token_view, place_view, import_view, errand_view};

use crate::options::{are_options, leading_count, value_of};

/// The option for a dry run; it stands behind all others.
const DRY_RUN: &str = "--dry-run";

/// Where an access token comes from.
#[derive(Clone, Copy)]
pub enum TokenSource<'a> {
    /// The argument that is the token itself, which each user of the machine sees.
    Argument(&'a str),
    /// The file of this path.
    File(&'a str),
}

/// Another server, and the access token by which it is asked.
#[derive(Clone, Copy)]
pub struct Destination<'a> {
    /// Its address, as `127.0.0.1:8080`.
    pub address: &'a str,
    pub token: TokenSource<'a>,
}

/// The arguments of an import: its files, and the server to which what they hold is sent.
#[derive(Clone, Copy)]
pub struct Import<'a> {
    pub files: &'a [String],
    /// `None` for a dry run, which sends nothing and prints what would be sent.
    pub destination: Option<Destination<'a>>,
}

/// The arguments of an export: a server, and the folder into which what is published there is written.
#[derive(Clone, Copy)]
pub struct Export<'a> {
    pub folder: &'a str,
    pub source: Destination<'a>,
}

/// An import or an export, between files and another server.
#[derive(Clone, Copy)]
pub enum Transfer<'a> {
    /// Sends documents of policies and geographies to a server as drafts.
    Policies(Import<'a>),
    /// Sends what vehicles do to a server as reports.
    Status(Import<'a>),
    /// Writes what is published at a server into a folder.
    Published(Export<'a>),
}

/// Whether the last argument is `--dry-run`.
fn is_dry(words: &[String]) -> bool
    ensures value { result ≡ is_dry (map string_bytes words.now) }
    ensures within { IsTrue result → 0 < length words.now }
{
    let mut rest = words;
    while let Some((word, behind)) = rest.split_first() {
        if behind.is_empty() {
            return word.as_str() == DRY_RUN;
        }
        rest = behind;
    }
    false
}

/// Where the access token of the options comes from; `None` where they have none, or both a token and a file.
fn token_source<'a>(words: &'a [String]) -> Option<TokenSource<'a>>
    ensures { option_map token_view result ≡ token_source (map string_bytes words.now) }
{
    match (value_of("--token", words), value_of("--token-file", words)) {
        (Some(token), None) => Some(TokenSource::Argument(token)),
        (None, Some(path)) => Some(TokenSource::File(path)),
        (Some(_), Some(_)) | (None, None) => None,
    }
}

/// The server that the options name, its address behind the option `name`; `None` where they are wrong.
fn place_in<'a>(name: &str, words: &'a [String]) -> Option<Destination<'a>>
    ensures { option_map place_view result ≡ place_in name.now (map string_bytes words.now) }
{
    if !are_options(&[name, "--token", "--token-file"], words) {
        return None;
    }
    let address = value_of(name, words)?;
    let token = token_source(words)?;
    Some(Destination { address, token })
}

/// Whether the options in front of `--dry-run` are none at all, or name a server.
fn dry_with(rest: &[String], place: Option<Destination<'_>>) -> bool
    ensures { dry_with (map string_bytes rest.now) (option_map place_view place.entry) ≡ (if result then Some None else None) }
{
    rest.is_empty() || place.is_some()
}

/// The server to which files are sent: `Some(None)` for a dry run, `None` where the options are wrong.
#[tactic(auto, using(crate::proofs::Prefixes::front_of_texts))]
fn destination_in(words: &[String]) -> Option<Option<Destination<'_>>>
    ensures { option_map (option_map place_view) result ≡ destination_in (map string_bytes words.now) }
{
    if is_dry(words) {
        let rest = &words[..words.len() - 1];
        if dry_with(rest, place_in("--to", rest)) {
            Some(None)
        } else {
            None
        }
    } else {
        match place_in("--to", words) {
            Some(place) => Some(Some(place)),
            None => None,
        }
    }
}

/// The arguments of an import: one file at least, and where they are sent; `None` where they are wrong.
fn import_options(words: &[String]) -> Option<Import<'_>>
    ensures documents { option_map (import_view policies) result ≡ sent_by policies (map string_bytes words.now) }
    ensures vehicles { option_map (import_view status) result ≡ sent_by status (map string_bytes words.now) }
{
    let (files, options) = words.split_at(leading_count(words));
    if files.is_empty() {
        return None;
    }
    match destination_in(options) {
        Some(destination) => Some(Import { files, destination }),
        None => None,
    }
}

/// What `import` asks for, by the kind of its files; `None` for another kind, or where its arguments are wrong.
fn import_of<'a>(kind: &str, words: &'a [String]) -> Option<Transfer<'a>>
    ensures { option_map errand_view result ≡ import_of kind.now (map string_bytes words.now) }
{
    if kind == "policies" {
        match import_options(words) {
            Some(import) => Some(Transfer::Policies(import)),
            None => None,
        }
    } else if kind == "status" {
        match import_options(words) {
            Some(import) => Some(Transfer::Status(import)),
            None => None,
        }
    } else {
        None
    }
}

/// What `export` asks for, with a folder and options; `None` where these are wrong.
fn export_of<'a>(folder: &'a str, words: &'a [String]) -> Option<Transfer<'a>>
    ensures { option_map errand_view result ≡ export_of folder.now (map string_bytes words.now) }
{
    match place_in("--from", words) {
        Some(source) => Some(Transfer::Published(Export { folder, source })),
        None => None,
    }
}

/// What a verb asks for, with its first argument and those behind it; `None` for any that is neither `import` nor
/// `export`.
pub(crate) fn transfer_of<'a>(
    verb: &str,
    name: &'a str,
    words: &'a [String],
) -> Option<Transfer<'a>>
    ensures { option_map errand_view result ≡ errand_of verb.now name.now (map string_bytes words.now) }
{
    if verb == "import" {
        import_of(name, words)
    } else if verb == "export" {
        export_of(name, words)
    } else {
        None
    }
}

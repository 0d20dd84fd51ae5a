//! The methods of a path, as the `allow` of a 405 lists them.
ghost use Rattle.std.specs.Prelude.{◌≡◌, ◌∷◌, [], IsTrue, codes, option_map};
ghost use Rattle.std.specs.List.{slice_split};
ghost use Rattle.http_header.specs.FieldValue.{is_visible_text};
ghost use Rattle.mds_request.specs.Call.{all_some, is_slash, segments_in};
ghost use Rattle.server_responses.specs.Methods.{methods_at, text_of};

/// The methods of a path, which has one of these sets of them.
#[derive(Clone, Copy, Debug, PartialEq, Eq)]
pub enum Methods {
    /// It is read.
    Get,
    /// Something is sent to it.
    Post,
    /// It is removed.
    Delete,
    /// It is written, read and removed.
    PutGetDelete,
}

impl Methods {
    /// The value of the field `allow` (RFC 9110, section 10.2.1).
    pub fn text(self) -> &'static str
        ensures value { result.now ≡ text_of self }
        ensures visible { IsTrue (is_visible_text result.now) }
    {
        match self {
            Methods::Get => "GET",
            Methods::Post => "POST",
            Methods::Delete => "DELETE",
            Methods::PutGetDelete => "PUT, GET, DELETE",
        }
    }
}

/// The methods of a path of one segment.
fn at_one(segment: &str) -> Option<Methods>
    ensures { option_map text_of result ≡ methods_at (all_some (segment.now ∷ [])) }
{
    match segment {
        "policies" | "geographies" | "compliance" => Some(Methods::Get),
        "publish" => Some(Methods::Post),
        _ => None,
    }
}

/// The methods of a path in `/fleet`.
fn in_fleet(segment: &str) -> Option<Methods>
    ensures { option_map text_of result ≡ methods_at (all_some (codes "fleet" ∷ segment.now ∷ [])) }
{
    match segment {
        "events" => Some(Methods::Post),
        "vehicles" => Some(Methods::Get),
        _ => None,
    }
}

/// The methods of a path in `/app`.
fn in_app(segment: &str) -> Option<Methods>
    ensures { option_map text_of result ≡ methods_at (all_some (codes "app" ∷ segment.now ∷ [])) }
{
    match segment {
        "whoami" | "withdrawals" | "drafts" | "compliance" | "fleet" => Some(Methods::Get),
        _ => None,
    }
}

/// The methods of a path in a folder of `/app`.
fn behind_app(folder: &str, segment: &str) -> Option<Methods>
    ensures { option_map text_of result ≡ methods_at (all_some (codes "app" ∷ folder.now ∷ segment.now ∷ [])) }
{
    match folder {
        "fleet" if segment == "events" => Some(Methods::Post),
        "fleet" | "compliance" if !segment.is_empty() => Some(Methods::Get),
        _ => None,
    }
}

/// The methods of a path of two segments.
fn at_two(first: &str, second: &str) -> Option<Methods>
    ensures { option_map text_of result ≡ methods_at (all_some (first.now ∷ second.now ∷ [])) }
{
    match first {
        "policies" | "geographies" | "compliance" if !second.is_empty() => Some(Methods::Get),
        "fleet" => in_fleet(second),
        "app" => in_app(second),
        _ => None,
    }
}

/// The methods of a path in `/drafts`.
fn in_drafts(kind: &str, id: &str) -> Option<Methods>
    ensures { option_map text_of result ≡ methods_at (all_some (codes "drafts" ∷ kind.now ∷ id.now ∷ [])) }
{
    match kind {
        "policies" | "geographies" if !id.is_empty() => Some(Methods::PutGetDelete),
        _ => None,
    }
}

/// The methods of a path of three segments.
fn at_three(first: &str, second: &str, third: &str) -> Option<Methods>
    ensures { option_map text_of result ≡ methods_at (all_some (first.now ∷ second.now ∷ third.now ∷ [])) }
{
    match (first, second) {
        ("drafts", _) => in_drafts(second, third),
        ("fleet", "vehicles") if !third.is_empty() => Some(Methods::Delete),
        ("app", _) => behind_app(second, third),
        _ => None,
    }
}

/// The methods of a path of three segments or more: two of them, and the rest after their slash.
fn behind_two(first: &str, second: &str, rest: &str) -> Option<Methods>
    ensures { option_map text_of result
        ≡ methods_at (all_some (first.now ∷ second.now ∷ slice_split is_slash rest.now)) }
{
    match rest.split_once('/') {
        None => at_three(first, second, rest),
        Some(_) => None,
    }
}

/// The methods of a path of two segments or more: the first of them, and the rest after its slash.
fn behind_one(first: &str, rest: &str) -> Option<Methods>
    ensures { option_map text_of result ≡ methods_at (all_some (first.now ∷ slice_split is_slash rest.now)) }
{
    match rest.split_once('/') {
        None => at_two(first, rest),
        Some((second, rest)) => behind_two(first, second, rest),
    }
}

/// The methods of a path, by what follows its first slash.
fn behind_slash(rest: &str) -> Option<Methods>
    ensures { option_map text_of result ≡ methods_at (all_some (slice_split is_slash rest.now)) }
{
    match rest.split_once('/') {
        None => at_one(rest),
        Some((first, rest)) => behind_one(first, rest),
    }
}

/// The methods of a path, without its query: those of the protocol's calls, and of the calls next
/// to it. None, where no call has the path.
pub fn methods_of(path: &str) -> Option<Methods>
    ensures { option_map text_of result ≡ methods_at (segments_in path.now) }
{
    match path.strip_prefix('/') {
        Some(rest) => behind_slash(rest),
        None => None,
    }
}

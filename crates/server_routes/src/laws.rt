//! Laws of the tables. Each function's contract is the law; the functions do nothing.
ghost use Rattle.std.specs.Prelude.{◌≡◌, ℕ, List};
ghost use Rattle.std.specs.Str.{IsUtf8};
ghost use Rattle.http_uri.specs.Uri.{uri_path};
ghost use Rattle.http_uri.specs.declared.uri.Uri.{Uri};
ghost use Rattle.mds_request.specs.Call.{path_of, segments_in, segments_of};
ghost use Rattle.mds_request.specs.declared.config.Actor.{Actor};
ghost use Rattle.mds_request.specs.declared.request.Verb.{Verb};
ghost use Rattle.server_state.specs.HttpRequest.{target_of};
ghost use Rattle.server_routes.specs.Allowed.{ListsCalls, RefusesUnlisted};
ghost use Rattle.server_routes.specs.Endpoint.{TablesAreApart};
ghost use Rattle.server_routes.specs.Past.{PastIsOfFleets};

/// No two of the tables share a path: the page's, that of the public documents, that of the calls
/// outside the protocol's, and the table of calls.
pub fn tables_are_apart()
    ensures { (path : List ℕ) → TablesAreApart path }
{}

/// At each path that is text, `allow` lists what is called there: of the calls outside the protocol's the method of the
/// one that has the path, and no other; at a path of the page or of the public documents nothing.
pub fn lists_calls()
    ensures { (path : List ℕ) → IsUtf8 path → ListsCalls path }
{}

/// A client is refused by its method exactly where `allow` lists others; what is called has a method that it lists.
pub fn refuses_unlisted()
    ensures { (actor : Actor) (verb : Verb) (target : List ℕ)
        → IsUtf8 (path_of target) → RefusesUnlisted actor verb target }
{}

/// The path of a head's URI, by which `allow` is chosen, has the segments of its target, by which its call is found.
pub fn paths_have_the_targets_segments()
    ensures { (uri : Uri) → segments_in (uri_path uri) ≡ segments_of (target_of uri) }
{}

/// A question about the past is asked exactly as the same question about fleets as they are now: at the path of a call
/// outside the protocol's, by a client and a method that this is called with.
pub fn past_is_of_fleets()
    ensures { PastIsOfFleets }
{}

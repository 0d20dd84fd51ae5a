//! The codes of refusals.
/// Why a request is refused.
#[derive(Clone, Copy, Debug, PartialEq, Eq)]
pub enum Code {
    /// A line of a replay is no request.
    BadLine,
    /// The machine's clock gives no moment: of a server that reads one.
    Clock,
    /// The body broke off: of a server that reads it from a connection.
    BadBody,
    /// There is no snapshot of the published catalogue: of a server that shares it.
    NoSnapshot,
    /// The body is over its limit.
    TooLarge,
    /// The access token is unknown, or isn't the one that is served here.
    Token,
    /// No route has this path.
    NoRoute,
    /// The path has no route with this method.
    Method,
    /// The call isn't for this client.
    Role,
    /// The identifier in the path is no UUID (RFC 9562).
    BadId,
    /// The body is no JSON (RFC 8259) or not UTF-8.
    BadJson,
    /// A number of a policy isn't a plain whole number.
    Decimal,
    /// A member is missing, or isn't of the kind that it has to be.
    BadField,
    /// A text in the place of a number is no number.
    BadNumber,
    /// A number is too small or too large.
    OutOfRange,
    /// A policy has more rules than are allowed.
    TooManyRules,
    /// A geography has more positions than are allowed.
    TooManyPoints,
    /// A ring has fewer than four positions (RFC 7946, section 3.1.6).
    RingShort,
    /// A ring's last position isn't its first (RFC 7946, section 3.1.6).
    RingOpen,
    /// A draft's own identifier isn't the one in the path.
    IdMismatch,
    /// A report's timestamp is after the request's moment.
    Future,
    /// The device's row has a later timestamp.
    Stale,
    /// The device has no row, and the operator has as many vehicles as its limit.
    FleetFull,
    /// The draft is new, and there are as many of its kind as the limit.
    DraftsFull,
    /// There is no draft with this identifier.
    NoDraft,
    /// There is no such document, device or policy in force for this client.
    NotFound,
    /// A publish request names nothing: no draft, and no policy to withdraw.
    Empty,
    /// A document with this identifier is already published.
    Published,
    /// A geography of a rule is missing.
    NoGeography,
    /// A policy to replace isn't published.
    NoPredecessor,
    /// A policy to withdraw isn't published.
    NotPublished,
    /// The batch would pass a limit of the catalogue.
    CatalogFull,
    /// Too much of this client's waits: of a server that lets requests wait.
    Busy,
    /// There is no disk space for a record of the request: of a server with a journal.
    NoRoom,
    /// Out of memory, and nothing has changed.
    NoMemory,
}

impl Code {
    ghost use Rattle.std.specs.Prelude.{◌≡◌};
    ghost use Rattle.mds_request.specs.Code.{status_of, body_of};

    /// The status of a refusal (RFC 9110, section 15).
    pub fn status(self) -> u16
        ensures { result ≡ status_of self }
    {
        match self {
            Code::Token => 401,
            Code::Role => 403,
            Code::NoRoute | Code::NoDraft | Code::NotFound => 404,
            Code::Method => 405,
            Code::Future
            | Code::Stale
            | Code::FleetFull
            | Code::DraftsFull
            | Code::Published
            | Code::NoGeography
            | Code::NoPredecessor
            | Code::NotPublished
            | Code::CatalogFull => 409,
            Code::TooLarge => 413,
            Code::Clock | Code::NoSnapshot | Code::Busy | Code::NoRoom | Code::NoMemory => 503,
            Code::BadLine
            | Code::BadBody
            | Code::BadId
            | Code::BadJson
            | Code::Decimal
            | Code::BadField
            | Code::BadNumber
            | Code::OutOfRange
            | Code::TooManyRules
            | Code::TooManyPoints
            | Code::RingShort
            | Code::RingOpen
            | Code::IdMismatch
            | Code::Empty => 400,
        }
    }

    /// The body of a refusal, one line of JSON: `{"error":"code"}`.
    pub fn body(self) -> &'static [u8]
        ensures { result.now ≡ body_of self }
    {
        match self {
            Code::BadLine => b"{\"error\":\"bad_line\"}",
            Code::Clock => b"{\"error\":\"clock\"}",
            Code::BadBody => b"{\"error\":\"bad_body\"}",
            Code::NoSnapshot => b"{\"error\":\"no_snapshot\"}",
            Code::TooLarge => b"{\"error\":\"too_large\"}",
            Code::Token => b"{\"error\":\"token\"}",
            Code::NoRoute => b"{\"error\":\"no_route\"}",
            Code::Method => b"{\"error\":\"method\"}",
            Code::Role => b"{\"error\":\"role\"}",
            Code::BadId => b"{\"error\":\"bad_id\"}",
            Code::BadJson => b"{\"error\":\"bad_json\"}",
            Code::Decimal => b"{\"error\":\"decimal\"}",
            Code::BadField => b"{\"error\":\"bad_field\"}",
            Code::BadNumber => b"{\"error\":\"bad_number\"}",
            Code::OutOfRange => b"{\"error\":\"out_of_range\"}",
            Code::TooManyRules => b"{\"error\":\"too_many_rules\"}",
            Code::TooManyPoints => b"{\"error\":\"too_many_points\"}",
            Code::RingShort => b"{\"error\":\"ring_short\"}",
            Code::RingOpen => b"{\"error\":\"ring_open\"}",
            Code::IdMismatch => b"{\"error\":\"id_mismatch\"}",
            Code::Future => b"{\"error\":\"future\"}",
            Code::Stale => b"{\"error\":\"stale\"}",
            Code::FleetFull => b"{\"error\":\"fleet_full\"}",
            Code::DraftsFull => b"{\"error\":\"drafts_full\"}",
            Code::NoDraft => b"{\"error\":\"no_draft\"}",
            Code::NotFound => b"{\"error\":\"not_found\"}",
            Code::Empty => b"{\"error\":\"empty\"}",
            Code::Published => b"{\"error\":\"published\"}",
            Code::NoGeography => b"{\"error\":\"no_geography\"}",
            Code::NoPredecessor => b"{\"error\":\"no_predecessor\"}",
            Code::NotPublished => b"{\"error\":\"not_published\"}",
            Code::CatalogFull => b"{\"error\":\"catalog_full\"}",
            Code::Busy => b"{\"error\":\"busy\"}",
            Code::NoRoom => b"{\"error\":\"no_room\"}",
            Code::NoMemory => b"{\"error\":\"no_memory\"}",
        }
    }
}

//! Journals of requests to a city.
use journal_entry::{JournalEntry, entry_by, entry_text, head_text, shares};
use mds_request::{Config, Request, Verb};
use mds_text::Moment;
use std::alloc::Global;
use tests_fixtures::{CONFIGURATION, FixtureExchange, PUBLISH, PUT_CAP, PUT_SQUARE, REPORT_FIRST};

/// A moment, in milliseconds since the Unix epoch, and the exchange whose request comes then.
pub(crate) type TimedExchange<'a> = (i64, &'a FixtureExchange);

/// A report of alfa's first vehicle, where it was and in the state in which it was.
pub(crate) const FIRST_LATER: &FixtureExchange = &FixtureExchange {
    at: 2002,
    token: "alfa",
    method: "POST",
    target: "/fleet/events",
    body: r#"{"device_id":"00000000-0000-4000-8000-000000000401","vehicle_type":"scooter","propulsion_types":["electric"],"vehicle_state":"available","event_types":["trip_end"],"timestamp":2002,"location":{"lat":5,"lng":5}}"#,
    status: 200,
    reply: r#"{"result":"changed"}"#,
};

/// A publication, and three reports of one vehicle in one state.
pub(crate) const OLD: &[TimedExchange<'static>] = &[
    (1000, &PUT_SQUARE),
    (1000, &PUT_CAP),
    (1000, &PUBLISH),
    (2000, &REPORT_FIRST),
    (2001, &REPORT_FIRST),
    (2002, FIRST_LATER),
];

/// The same, compacted: without the report that is neither the last one nor begins its state's run.
pub(crate) const COMPACTED: &[TimedExchange<'static>] = &[
    (1000, &PUT_SQUARE),
    (1000, &PUT_CAP),
    (1000, &PUBLISH),
    (2000, &REPORT_FIRST),
    (2002, FIRST_LATER),
];

/// The city's configuration; `None` where memory ran out.
pub(crate) fn configuration(alloc: Global) -> Option<Config> {
    Config::read(alloc, CONFIGURATION).ok()
}

/// The request of an exchange at a moment; `None` where that is no moment.
pub(crate) fn request(at: i64, exchange: &FixtureExchange) -> Option<Request<'_>> {
    Some(Request {
        at: Moment::new(at)?,
        token: exchange.token.as_bytes(),
        verb: Verb::read(exchange.method.as_bytes()),
        target: exchange.target.as_bytes(),
        body: exchange.body.as_bytes(),
    })
}

/// The entry of an exchange's request at a moment.
fn entry<'a>(config: &Config, at: i64, exchange: &'a FixtureExchange) -> Option<JournalEntry<'a>> {
    match request(at, exchange) {
        Some(request) => entry_by(config, &request),
        None => None,
    }
}

/// Adds the entry of an exchange's request; `None` where there is none, or memory ran out.
fn add<'a>(
    entries: &mut Vec<JournalEntry<'a>>,
    config: &Config,
    at: i64,
    exchange: &'a FixtureExchange,
) -> Option<()> {
    let Some(entry) = entry(config, at, exchange) else {
        return None;
    };
    match entries.push(entry) {
        Ok(()) => Some(()),
        Err(_) => None,
    }
}

/// The entries of these requests, in their order; `None` where memory ran out.
pub(crate) fn entries<'a>(
    alloc: Global,
    config: &Config,
    asked: &[TimedExchange<'a>],
) -> Option<Vec<JournalEntry<'a>>> {
    let mut entries = Vec::new(alloc);
    for (at, exchange) in asked {
        add(&mut entries, config, *at, exchange)?;
    }
    Some(entries)
}

/// The payload of a journal's head.
fn head(alloc: Global, config: &Config) -> Option<Vec<u8>> {
    let shares = shares(alloc, config).ok()?;
    head_text(alloc, &shares).ok()
}

/// The payload of an entry.
fn text(alloc: Global, config: &Config, at: i64, exchange: &FixtureExchange) -> Option<Vec<u8>> {
    match entry(config, at, exchange) {
        Some(entry) => entry_text(alloc, &entry).ok(),
        None => None,
    }
}

/// Adds a payload; `None` where there is none, or memory ran out.
fn push(texts: &mut Vec<Vec<u8>>, text: Option<Vec<u8>>) -> Option<()> {
    texts.push(text?).ok()
}

/// The payloads of a journal of these requests, the head first; `None` where memory ran out.
pub(crate) fn texts(alloc: Global, asked: &[TimedExchange<'_>]) -> Option<Vec<Vec<u8>>> {
    let config = configuration(alloc)?;
    let mut texts = Vec::new(alloc);
    push(&mut texts, head(alloc, &config))?;
    for (at, exchange) in asked {
        push(&mut texts, text(alloc, &config, *at, exchange))?;
    }
    Some(texts)
}

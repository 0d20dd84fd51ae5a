//! Fixtures: exchanges of a city with two operators, requests with replies worked out by hand from the protocol.
//! Tests send them to the machine, to desks and to halls.
#![tactic(auto)]

mod city;

pub use city::{
    AFTER_THE_WITHDRAWAL, BEFORE_THE_WITHDRAWAL, CAP, CONFIGURATION, DRAFTS, EXCEEDED, FAR,
    GEOGRAPHIES, HISTORY, NO_GEOGRAPHIES, NO_POLICIES, NONE_FOR_ALFA, NONE_FOR_BRAVO,
    NOTHING_FOR_ALFA, NOTHING_FOR_BRAVO, POLICY, PUBLISH, PUT_CAP, PUT_SQUARE, REPORT_FIRST,
    REPORT_SECOND, SET_UP, SQUARE, TOO_EARLY, VEHICLES, WITHDRAW, WITHIN, WITHIN_THEN_EXCEEDED,
};

/// A request at a moment, and its reply.
#[derive(Clone, Copy)]
pub struct FixtureExchange {
    /// The moment of the request, in milliseconds since the Unix epoch.
    pub at: i64,
    /// The access token of the request.
    pub token: &'static str,
    /// The name of the method, in capitals.
    pub method: &'static str,
    /// The path.
    pub target: &'static str,
    /// The request's body, empty where there is none.
    pub body: &'static str,
    /// The reply's status.
    pub status: u16,
    /// The reply's body.
    pub reply: &'static str,
}

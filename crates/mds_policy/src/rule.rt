//! The rules of a policy (MDS 2.0 Policy, rules).
use mds_text::{Id, Token};

/// The unit of a time rule (MDS 2.0 Policy, rule units).
#[derive(Clone, Copy, Debug, PartialEq, Eq)]
pub enum TimeUnit {
    /// 1,000 ms.
    Seconds,
    /// 60,000 ms.
    Minutes,
    /// 3,600,000 ms.
    Hours,
    /// 86,400,000 ms.
    Days,
}

/// What a rule limits (MDS 2.0 Policy, rule types).
#[derive(Clone, Copy, Debug, PartialEq, Eq)]
pub enum Kind {
    /// The number of vehicles.
    Count,
    /// How long a vehicle stays in its state.
    Time(TimeUnit),
    /// Any other rule: it is stored and served, but not evaluated.
    Other,
}

/// The bounds of a rule's measure. An absent bound doesn't bound anything.
#[derive(Clone, Copy, Debug, PartialEq, Eq)]
pub struct Bounds {
    /// The least measure, in vehicles or in the rule's units.
    pub minimum: Option<u32>,
    /// The greatest measure, in vehicles or in the rule's units.
    pub maximum: Option<u32>,
    /// Whether the least measure is within the bounds.
    pub inclusive_minimum: bool,
    /// Whether the greatest measure is within the bounds.
    pub inclusive_maximum: bool,
}

/// When a rule is open: the seconds of the local day from `start` to `end`, both included, and the
/// days of the week, from Sunday on, on which it opens. A start after the end means a window over
/// midnight.
#[derive(Clone, Copy, Debug, PartialEq, Eq)]
pub struct Window {
    /// The first second, counted from midnight.
    pub start: u32,
    /// The last second, counted from midnight.
    pub end: u32,
    /// Whether the rule opens on Sunday, Monday and so on.
    pub days: [bool; 7],
}

/// A vehicle state and the event types that a rule is for; an empty list means all.
#[derive(Drop)]
pub struct StateEvents {
    /// The vehicle state.
    pub state: Token,
    /// The event types.
    pub events: Vec<Token>,
}

/// A rule of a policy (MDS 2.0 Policy, rules). An empty list of states, vehicle types or propulsion
/// types means all; an empty list of geographies covers no position.
#[derive(Drop)]
pub struct Rule {
    /// The rule's identifier.
    pub id: Id,
    /// What the rule limits.
    pub kind: Kind,
    /// The geographies in which the rule applies.
    pub geographies: Vec<Id>,
    /// The vehicle states that the rule is for, in the order of their names.
    pub states: Vec<StateEvents>,
    /// The vehicle types that the rule is for.
    pub vehicle_types: Vec<Token>,
    /// The propulsion types of which a vehicle must have one.
    pub propulsion_types: Vec<Token>,
    /// The bounds of the measure.
    pub bounds: Bounds,
    /// When the rule is open.
    pub window: Window,
}

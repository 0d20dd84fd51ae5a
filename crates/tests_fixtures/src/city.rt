//! A city of two operators, where a policy is published, kept, violated and withdrawn.
use crate::FixtureExchange;

/// Two operators, alfa and bravo, each with two vehicles at most; the author is city.
pub const CONFIGURATION: &[u8] =
    br#"{"author":"city","operators":[{"id":"00000000-0000-4000-8000-0000000000a1","limit":2,"token":"alfa"},{"id":"00000000-0000-4000-8000-0000000000b1","limit":2,"token":"bravo"}],"zone":"Z"}"#;

/// A square from 0 to 10 degrees.
pub const SQUARE: &str = concat!(
    r#"{"geography_id":"00000000-0000-4000-8000-000000000101","name":"square","geography_json":{"type":"Polygon","#,
    r#""coordinates":[[[0,0],[10,0],[10,10],[0,10],[0,0]]]}}"#,
);

/// At most one vehicle in the square, from 1000 on.
pub const CAP: &str = concat!(
    r#"{"policy_id":"00000000-0000-4000-8000-000000000201","name":"cap","start_date":1000,"#,
    r#""rules":[{"rule_id":"00000000-0000-4000-8000-000000000301","name":"cap","rule_type":"count","#,
    r#""geographies":["00000000-0000-4000-8000-000000000101"],"maximum":1}]}"#,
);

/// No policy is published.
pub const NO_POLICIES: FixtureExchange = FixtureExchange {
    at: 900,
    token: "city",
    method: "GET",
    target: "/policies",
    body: "",
    status: 200,
    reply: r#"{"policies":[],"revision":0}"#,
};

/// No geography is published either, for an operator.
pub const NO_GEOGRAPHIES: FixtureExchange = FixtureExchange {
    at: 900,
    token: "alfa",
    method: "GET",
    target: "/geographies",
    body: "",
    status: 200,
    reply: r#"{"geographies":[],"revision":0}"#,
};

/// Alfa asks for compliance before anything is published.
pub const NOTHING_FOR_ALFA: FixtureExchange = FixtureExchange {
    at: 2000,
    token: "alfa",
    method: "GET",
    target: "/compliance",
    body: "",
    status: 200,
    reply: r#"{"at":2000,"policies":[],"revision":0,"version":2}"#,
};

/// Bravo asks for compliance before anything is published.
pub const NOTHING_FOR_BRAVO: FixtureExchange = FixtureExchange {
    at: 2000,
    token: "bravo",
    method: "GET",
    target: "/compliance",
    body: "",
    status: 200,
    reply: r#"{"at":2000,"policies":[],"revision":0,"version":2}"#,
};

/// The square is put as a draft.
pub const PUT_SQUARE: FixtureExchange = FixtureExchange {
    at: 1000,
    token: "city",
    method: "PUT",
    target: "/drafts/geographies/00000000-0000-4000-8000-000000000101",
    body: SQUARE,
    status: 200,
    reply: r#"{"result":"new"}"#,
};

/// The cap is put as a draft.
pub const PUT_CAP: FixtureExchange = FixtureExchange {
    at: 1000,
    token: "city",
    method: "PUT",
    target: "/drafts/policies/00000000-0000-4000-8000-000000000201",
    body: CAP,
    status: 200,
    reply: r#"{"result":"new"}"#,
};

/// Both drafts are published.
pub const PUBLISH: FixtureExchange = FixtureExchange {
    at: 1000,
    token: "city",
    method: "POST",
    target: "/publish",
    body: r#"{"geographies":["00000000-0000-4000-8000-000000000101"],"policies":["00000000-0000-4000-8000-000000000201"]}"#,
    status: 200,
    reply: r#"{"published_date":1000,"revision":1}"#,
};

/// The published square is listed.
pub const GEOGRAPHIES: FixtureExchange = FixtureExchange {
    at: 1000,
    token: "alfa",
    method: "GET",
    target: "/geographies",
    body: "",
    status: 200,
    reply: concat!(
        r#"{"geographies":[{"geography_id":"00000000-0000-4000-8000-000000000101","#,
        r#""geography_json":{"features":[{"geometry":{"coordinates":[[[[0,0],[10,0],[10,10],[0,10],[0,0]]]],"type":"MultiPolygon"},"#,
        r#""properties":null,"type":"Feature"}],"type":"FeatureCollection"},"name":"square","published_date":1000}],"revision":1}"#,
    ),
};

/// The published cap is shown.
pub const POLICY: FixtureExchange = FixtureExchange {
    at: 1000,
    token: "alfa",
    method: "GET",
    target: "/policies/00000000-0000-4000-8000-000000000201",
    body: "",
    status: 200,
    reply: concat!(
        r#"{"policy":{"name":"cap","policy_id":"00000000-0000-4000-8000-000000000201","published_date":1000,"#,
        r#""rules":[{"geographies":["00000000-0000-4000-8000-000000000101"],"maximum":1,"name":"cap","#,
        r#""rule_id":"00000000-0000-4000-8000-000000000301","rule_type":"count"}],"start_date":1000},"revision":1}"#,
    ),
};

/// The cap isn't in force before its start.
pub const TOO_EARLY: FixtureExchange = FixtureExchange {
    at: 999,
    token: "alfa",
    method: "GET",
    target: "/compliance",
    body: "",
    status: 200,
    reply: r#"{"at":999,"policies":[],"revision":1,"version":2}"#,
};

/// No vehicle of alfa is counted.
pub const NONE_FOR_ALFA: FixtureExchange = FixtureExchange {
    at: 2000,
    token: "alfa",
    method: "GET",
    target: "/compliance",
    body: "",
    status: 200,
    reply: concat!(
        r#"{"at":2000,"policies":[{"policy_id":"00000000-0000-4000-8000-000000000201","rules":[{"measure":0,"#,
        r#""rule_id":"00000000-0000-4000-8000-000000000301","status":"ok"}]}],"revision":1,"version":2}"#,
    ),
};

/// No vehicle of bravo is counted.
pub const NONE_FOR_BRAVO: FixtureExchange = FixtureExchange {
    at: 2000,
    token: "bravo",
    method: "GET",
    target: "/compliance",
    body: "",
    status: 200,
    reply: concat!(
        r#"{"at":2000,"policies":[{"policy_id":"00000000-0000-4000-8000-000000000201","rules":[{"measure":0,"#,
        r#""rule_id":"00000000-0000-4000-8000-000000000301","status":"ok"}]}],"revision":1,"version":2}"#,
    ),
};

/// Bravo asks for compliance long afterwards, and has no vehicle.
pub const FAR: FixtureExchange = FixtureExchange {
    at: 4000000000000,
    token: "bravo",
    method: "GET",
    target: "/compliance",
    body: "",
    status: 200,
    reply: concat!(
        r#"{"at":4000000000000,"policies":[{"policy_id":"00000000-0000-4000-8000-000000000201","rules":[{"measure":0,"#,
        r#""rule_id":"00000000-0000-4000-8000-000000000301","status":"ok"}]}],"revision":1,"version":2}"#,
    ),
};

/// Alfa's first vehicle is in the square.
pub const REPORT_FIRST: FixtureExchange = FixtureExchange {
    at: 2000,
    token: "alfa",
    method: "POST",
    target: "/fleet/events",
    body: concat!(
        r#"{"device_id":"00000000-0000-4000-8000-000000000401","vehicle_type":"scooter","propulsion_types":["electric"],"#,
        r#""vehicle_state":"available","event_types":["trip_end"],"timestamp":2000,"location":{"lat":5,"lng":5}}"#,
    ),
    status: 200,
    reply: r#"{"result":"new"}"#,
};

/// One vehicle is within the cap.
pub const WITHIN: FixtureExchange = FixtureExchange {
    at: 2000,
    token: "alfa",
    method: "GET",
    target: "/compliance",
    body: "",
    status: 200,
    reply: concat!(
        r#"{"at":2000,"policies":[{"policy_id":"00000000-0000-4000-8000-000000000201","rules":[{"measure":1,"#,
        r#""rule_id":"00000000-0000-4000-8000-000000000301","status":"ok"}]}],"revision":1,"version":2}"#,
    ),
};

/// Alfa's second vehicle is in the square.
pub const REPORT_SECOND: FixtureExchange = FixtureExchange {
    at: 2001,
    token: "alfa",
    method: "POST",
    target: "/fleet/events",
    body: concat!(
        r#"{"device_id":"00000000-0000-4000-8000-000000000402","vehicle_type":"scooter","propulsion_types":["electric"],"#,
        r#""vehicle_state":"available","event_types":["trip_end"],"timestamp":2001,"location":{"lat":5,"lng":5}}"#,
    ),
    status: 200,
    reply: r#"{"result":"new"}"#,
};

/// Two vehicles are over the cap, and are listed.
pub const EXCEEDED: FixtureExchange = FixtureExchange {
    at: 2001,
    token: "alfa",
    method: "GET",
    target: "/compliance",
    body: "",
    status: 200,
    reply: concat!(
        r#"{"at":2001,"policies":[{"policy_id":"00000000-0000-4000-8000-000000000201","#,
        r#""rules":[{"devices":["00000000-0000-4000-8000-000000000401","00000000-0000-4000-8000-000000000402"],"measure":2,"#,
        r#""rule_id":"00000000-0000-4000-8000-000000000301","status":"violated"}]}],"revision":1,"version":2}"#,
    ),
};

/// Both of alfa's vehicles are listed.
pub const VEHICLES: FixtureExchange = FixtureExchange {
    at: 2001,
    token: "alfa",
    method: "GET",
    target: "/fleet/vehicles",
    body: "",
    status: 200,
    reply: concat!(
        r#"{"vehicles":[{"device_id":"00000000-0000-4000-8000-000000000401","event_types":["trip_end"],"location":{"lat":5,"#,
        r#""lng":5},"propulsion_types":["electric"],"since":2000,"timestamp":2000,"vehicle_state":"available","#,
        r#""vehicle_type":"scooter"},{"device_id":"00000000-0000-4000-8000-000000000402","event_types":["trip_end"],"#,
        r#""location":{"lat":5,"lng":5},"propulsion_types":["electric"],"since":2001,"timestamp":2001,"vehicle_state":"available","#,
        r#""vehicle_type":"scooter"}]}"#,
    ),
};

/// The cap is withdrawn.
pub const WITHDRAW: FixtureExchange = FixtureExchange {
    at: 3000,
    token: "city",
    method: "POST",
    target: "/publish",
    body: r#"{"withdraw":["00000000-0000-4000-8000-000000000201"]}"#,
    status: 200,
    reply: r#"{"published_date":3000,"revision":2}"#,
};

/// The cap is in force until its withdrawal.
pub const BEFORE_THE_WITHDRAWAL: FixtureExchange = FixtureExchange {
    at: 2999,
    token: "alfa",
    method: "GET",
    target: "/compliance/00000000-0000-4000-8000-000000000201",
    body: "",
    status: 200,
    reply: concat!(
        r#"{"at":2999,"policy":{"policy_id":"00000000-0000-4000-8000-000000000201","#,
        r#""rules":[{"devices":["00000000-0000-4000-8000-000000000401","00000000-0000-4000-8000-000000000402"],"measure":2,"#,
        r#""rule_id":"00000000-0000-4000-8000-000000000301","status":"violated"}]},"revision":2,"version":2}"#,
    ),
};

/// The cap isn't in force from its withdrawal on.
pub const AFTER_THE_WITHDRAWAL: FixtureExchange = FixtureExchange {
    at: 3000,
    token: "alfa",
    method: "GET",
    target: "/compliance",
    body: "",
    status: 200,
    reply: r#"{"at":3000,"policies":[],"revision":2,"version":2}"#,
};

/// Both drafts are put.
pub const DRAFTS: &[FixtureExchange] = &[PUT_SQUARE, PUT_CAP];

/// Both drafts are put and published.
pub const SET_UP: &[FixtureExchange] = &[PUT_SQUARE, PUT_CAP, PUBLISH];

/// After `SET_UP`, alfa's requests: its first vehicle is within the cap, its second exceeds it.
pub const WITHIN_THEN_EXCEEDED: &[FixtureExchange] = &[
    REPORT_FIRST,
    WITHIN,
    REPORT_SECOND,
    EXCEEDED,
];

/// A whole history, from nothing published to the withdrawal.
pub const HISTORY: &[FixtureExchange] = &[
    NO_POLICIES,
    NO_GEOGRAPHIES,
    PUT_SQUARE,
    PUT_CAP,
    PUBLISH,
    GEOGRAPHIES,
    POLICY,
    TOO_EARLY,
    REPORT_FIRST,
    WITHIN,
    REPORT_SECOND,
    EXCEEDED,
    VEHICLES,
    NONE_FOR_BRAVO,
    FAR,
    WITHDRAW,
    BEFORE_THE_WITHDRAWAL,
    AFTER_THE_WITHDRAWAL,
];

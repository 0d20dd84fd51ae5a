//! A city's configuration and documents, for tests of desks and halls.

/// A city of two operators.
pub(crate) const CONFIGURATION: &[u8] =
    br#"{"author":"city","operators":[{"id":"00000000-0000-4000-8000-0000000000a1","limit":2,"token":"alfa"},{"id":"00000000-0000-4000-8000-0000000000b1","limit":2,"token":"bravo"}],"zone":"Z"}"#;

/// A square from 0 to 10 degrees.
pub(crate) const SQUARE: &str =
    r#"{"geography_id":"00000000-0000-4000-8000-000000000101","name":"square","geography_json":{"type":"Polygon","coordinates":[[[0,0],[10,0],[10,10],[0,10],[0,0]]]}}"#;

/// At most one vehicle in the square, from 1000 on.
pub(crate) const CAP: &str =
    r#"{"policy_id":"00000000-0000-4000-8000-000000000201","name":"cap","start_date":1000,"rules":[{"rule_id":"00000000-0000-4000-8000-000000000301","name":"cap","rule_type":"count","geographies":["00000000-0000-4000-8000-000000000101"],"maximum":1}]}"#;

/// The publish request for both.
pub(crate) const BOTH: &str =
    r#"{"geographies":["00000000-0000-4000-8000-000000000101"],"policies":["00000000-0000-4000-8000-000000000201"]}"#;

/// The answer where something is put or reported for the first time.
pub(crate) const NEW: &str = r#"{"result":"new"}"#;

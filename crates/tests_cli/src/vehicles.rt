//! Tests of vehicles of feeds, and of files of what is published.
use cli_vehicles::{
    VehicleOutcome, features_file, gbfs_outcome, geographies_file, instant_of, mds_outcome,
    policies_file,
};
use mds_json::read_tree;
use std::slice::from_ref;
use std::test::Fail;

/// A status of MDS with its vehicle's type.
const STATUS: &[u8] =
    br#"{"device_id":"C1D2E3F4-0A1B-4C2D-8E3F-405162734401","vehicle_type":"scooter_standing",
"last_event":{"vehicle_state":"available","event_types":["trip_end"],"timestamp":1790000100000,
"location":{"lat":45.51,"lng":-122.67}}}"#;

/// A vehicle of GBFS, and its type.
const VEHICLE: &[u8] =
    br#"{"vehicle_id":"b1","lat":45.512,"lon":-122.68,"is_reserved":false,"is_disabled":true,
"last_reported":"2026-11-25T12:59:00Z"}"#;

const TYPE: &[u8] = br#"{"form_factor":"scooter_standing","propulsion_type":"electric"}"#;

#[test]
fn reports_a_status(rt: HostRuntime) -> Result<(), Fail> {
    let alloc = rt.alloc();
    let status = read_tree(alloc, STATUS)?;
    match mds_outcome(alloc, &status, &status)? {
        VehicleOutcome::Present(body) => {
            let wanted: &[u8] = b"{\"device_id\":\"c1d2e3f4-0a1b-4c2d-8e3f-405162734401\",\
                \"event_types\":[\"trip_end\"],\"timestamp\":1790000100000,\"vehicle_state\":\"available\",\
                \"location\":{\"lat\":45.51,\"lng\":-122.67},\"propulsion_types\":[],\
                \"vehicle_type\":\"scooter_standing\"}";
            assert!(rt; body.as_slice() == wanted);
        }
        _ => assert!(rt; false),
    }
    Ok(())
}

#[test]
fn reports_a_vehicle(rt: HostRuntime) -> Result<(), Fail> {
    let alloc = rt.alloc();
    let vehicle = read_tree(alloc, VEHICLE)?;
    let kind = read_tree(alloc, TYPE)?;
    let moment = match cli_documents::member_of(&vehicle, "last_reported") {
        Some(seen) => instant_of(seen),
        None => None,
    };
    assert!(rt; moment == Some(1_795_611_540_000));
    match gbfs_outcome(alloc, &vehicle, Some(&kind), moment)? {
        VehicleOutcome::Present(body) => {
            let text = str::from_utf8(&body)?;
            assert!(rt; text.contains("\"propulsion_types\":[\"electric\"]"));
        }
        _ => assert!(rt; false),
    }
    Ok(())
}

/// A geography whose description reads as a number.
const GEOGRAPHY: &[u8] =
    br#"{"description":"1.5","geography_id":"00000001-0000-4000-8000-000000000001","geography_json":
{"features":[{"geometry":{"coordinates":[5.25,7],"type":"Point"}}]},"name":"Dock","published_date":3}"#;

#[test]
fn writes_what_is_published(rt: HostRuntime) -> Result<(), Fail> {
    let alloc = rt.alloc();
    let place = read_tree(alloc, GEOGRAPHY)?;
    let wanted: &[u8] =
        b"{\"version\":\"2.0.0\",\"data\":{\"geographies\":[{\"description\":\"1.5\",\
        \"geography_id\":\"00000001-0000-4000-8000-000000000001\",\"geography_json\":{\"features\":\
        [{\"geometry\":{\"coordinates\":[5.25,7],\"type\":\"Point\"}}]},\"name\":\"Dock\",\"published_date\":3}]}}\n";
    let file = geographies_file(alloc, from_ref(&place))?;
    assert!(rt; file.as_slice() == wanted);
    let wanted: &[u8] =
        b"{\"type\":\"FeatureCollection\",\"features\":[{\"geometry\":{\"coordinates\":[5.25,7],\
        \"type\":\"Point\"},\"id\":\"00000001-0000-4000-8000-000000000001\",\"properties\":{\"description\":\"1.5\",\
        \"geography_id\":\"00000001-0000-4000-8000-000000000001\",\"name\":\"Dock\"},\"type\":\"Feature\"}]}\n";
    let file = features_file(alloc, from_ref(&place))?;
    assert!(rt; file.as_slice() == wanted);
    let policy = read_tree(alloc, b"{\"name\":\"1.5\"}")?;
    let wanted: &[u8] = b"{\"version\":\"2.0.0\",\"data\":{\"policies\":[{\"name\":\"1.5\"}]}}\n";
    let file = policies_file(alloc, from_ref(&policy))?;
    assert!(rt; file.as_slice() == wanted);
    Ok(())
}

//! Quoted numbers, printed units, trees that are built and printed, and the messages of faults.
use mds_geography::GeoFault;
use mds_geometry::RingFault;
use mds_policy::PolicyFault;
use mds_text::{
    Field, Member, NumberFault, TextFault, Tree, Units7, add_member, bool_tree, copy_tree,
    int_tree, list_tree, object_tree, print_tree, print_units, quote_numbers, read_tree, text_tree,
    units_of,
};
use std::alloc::{AllocError, Global};
use std::test::Fail;

/// Texts, each with the text after quoting and the count of quoted numbers.
const QUOTED: &[(&str, &str, u64)] = &[
    (
        r#"{"a":-0,"b":[1.50,12]}"#,
        r#"{"a":"-0","b":["1.50",12]}"#,
        2,
    ),
    ("[01]", "[01]", 0),
    ("", "", 0),
    ("-", "-", 0),
    ("[1e5,1E5,0.0]", r#"["1e5","1E5","0.0"]"#, 3),
    ("{1.5:2}", r#"{"1.5":2}"#, 1),
    ("1.5.2", "1.5.2", 0),
    ("123456789012345678", "123456789012345678", 0),
    ("-123456789012345678", "-123456789012345678", 0),
    ("1234567890123456789", r#""1234567890123456789""#, 1),
    (
        r#"["1.5",1.5,"\"1.5",1.5]"#,
        r#"["1.5","1.5","\"1.5","1.5"]"#,
        2,
    ),
    (r#"["\\",1.5,"\\\"1.5"]"#, r#"["\\","1.5","\\\"1.5"]"#, 1),
    (r#"["1.5"#, r#"["1.5"#, 0),
    (r#"["\"#, r#"["\"#, 0),
];

#[test]
fn numbers_are_quoted(rt: HostRuntime) {
    for (text, wanted, count) in QUOTED {
        let (quoted, found) = quote_numbers(rt.alloc(), text.as_bytes()).expect(&rt, "memory");
        assert!(rt;
            quoted.as_slice() == wanted.as_bytes() && found == *count,
            "{text}"
        );
    }
}

/// Degrees, their units rounded half away from zero, and the text that is printed for these.
const DEGREES: &[(&str, i64, &str)] = &[
    ("-118.24370005", -1_182_437_001, "-118.2437001"),
    ("2.00000004", 20_000_000, "2"),
];

#[test]
fn units_are_printed(rt: HostRuntime) {
    for (text, wanted, printed) in DEGREES {
        let units = units_of(text).expect(&rt, "a coordinate");
        assert!(rt; units.get() == *wanted);
        let text = print_units(rt.alloc(), units).expect(&rt, "memory");
        assert!(rt; text.as_str() == *printed);
    }
    assert!(rt; units_of("1e3").err() == Some(NumberFault::OutOfRange));
}

const MADE: &[u8] = br#"{"name":"a\"b","coordinates":[-0.5,-3],"states":true}"#;

/// Adds the first two members.
fn add_two(alloc: Global, members: &mut Vec<Member>, units: Units7) -> Result<(), AllocError> {
    let entries = vec![in alloc; Tree::Degrees(units), int_tree(-3)]?;
    add_member(members, "name", text_tree(alloc, "a\"b")?)?;
    add_member(members, "coordinates", list_tree(entries))
}

/// The printed text of a copy of an object, which is built member by member.
fn object_text(alloc: Global, units: Units7) -> Result<Vec<u8>, AllocError> {
    let mut members = Vec::new(alloc);
    add_two(alloc, &mut members, units)?;
    add_member(&mut members, "states", bool_tree(true))?;
    let copy = copy_tree(alloc, &object_tree(members))?;
    print_tree(alloc, &copy)
}

#[test]
fn trees_are_made(rt: HostRuntime) {
    let units = Units7::new(-5_000_000).expect(&rt, "a coordinate");
    let made = object_text(rt.alloc(), units).expect(&rt, "memory");
    assert!(rt; made.as_slice() == MADE);
    let copied = read_tree(rt.alloc(), MADE).expect(&rt, "a tree");
    assert!(rt; matches!(copied, Tree::Object(_)));
}

/// Faults and their messages.
const GEO_FAULTS: &[(GeoFault, &str)] = &[
    (GeoFault::Text(TextFault::BadJson), "bad JSON"),
    (
        GeoFault::Text(TextFault::BadField(Field::Lat)),
        "bad field lat",
    ),
    (GeoFault::Text(TextFault::BadNumber), "bad number"),
    (GeoFault::Text(TextFault::OutOfRange), "out of range"),
    (GeoFault::Ring(RingFault::Short), "a ring is short"),
    (GeoFault::Ring(RingFault::Open), "a ring is open"),
    (GeoFault::TooManyPoints, "too many positions"),
];

#[test]
fn faults_are_printed(rt: HostRuntime) -> Result<(), Fail> {
    for (fault, wanted) in GEO_FAULTS {
        let told = format!(in rt.alloc(); "{fault}")?;
        assert!(rt; told.as_str() == *wanted, "{wanted}");
    }
    let told = format!(in rt.alloc(); "{}", PolicyFault::TooManyRules)?;
    assert!(rt; told.as_str() == "too many rules");
    Ok(())
}

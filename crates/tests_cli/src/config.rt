//! Tests of the findings in configurations.
use cli_config::{Limits, ResolvedZone, review, with_zone, zone_name_in};
use cli_timezone::{ZoneFileFault, ZoneRule};
use mds_request::Config;
use mds_text::Id;
use std::alloc::{AllocError, Global};
use std::test::Fail;

/// An operator's identifier.
const ID: &str = "6f3c2a10-8d55-4b0e-9a51-0c7f4f1f2a01";

/// A configuration of seven lines, with this limit and this token of its operator, and this zone.
fn city(alloc: Global, limit: &str, token: &str, zone: &str) -> Result<String, AllocError> {
    format!(in alloc;
        "{{\n  \"author\": \"city\",\n  \"operators\": [\n    {{\"id\": \"{ID}\", \"limit\": {limit}{token}}}\n  ],\n  \"zone\": {zone}\n}}\n"
    )
}

/// The findings in a text as lines, each error with an exclamation mark before it.
fn lines_of(alloc: Global, text: &str, zoned: &ResolvedZone) -> Result<String, AllocError> {
    let mut lines = String::new(alloc);
    for finding in &review(alloc, text.as_bytes(), zoned)? {
        if finding.is_error() {
            lines.push_str("!")?;
        }
        lines.push_str(finding.line(alloc, "c.json")?.as_str())?;
        lines.push_str("\n")?;
    }
    Ok(lines)
}

/// Whether the findings are exactly these lines.
fn finds(alloc: Global, text: &str, wanted: &str) -> Result<bool, AllocError> {
    let lines = lines_of(alloc, text, &ResolvedZone::Plain)?;
    Ok(lines.as_str() == wanted)
}

/// The rule of a text.
fn rule(alloc: Global, text: &str) -> Result<ZoneRule, AllocError> {
    ZoneRule::read(alloc, text)?.ok_or(AllocError)
}

#[test]
fn finds_nothing_in_a_configuration(rt: HostRuntime) -> Result<(), Fail> {
    let alloc = rt.alloc();
    let text = city(
        alloc,
        "500",
        ", \"token\": \"scoot\", \"name\": \"Scoot\"",
        "\"Z\", \"public\": true",
    )?;
    assert!(rt; finds(alloc, text.as_str(), "")?);
    Ok(())
}

#[test]
fn warns_of_members(rt: HostRuntime) -> Result<(), Fail> {
    let alloc = rt.alloc();
    let text =
        "{\"author\":\"city\",\n \"pubilc\":true,\"public\":\"true\",\"é\":1,\"l\\u001b\":[{\"limit\":1}],\n\
        \"operators\":[{\"id\":\"6f3c2a10-8d55-4b0e-9a51-0c7f4f1f2a01\",\"limit\":500,\"token\":\"scoot\",\n\
        \"nam\":1,\"name\":2,\"zone\":{\"a\":1}}],\"zone\":\"Z\",\"limit\":3}";
    let wanted = "c.json:2:2: pubilc: nobody reads this member; did you mean \"public\"?\n\
        c.json:2:16: public: neither true nor false, so it counts as false\n\
        c.json:2:32: ??: nobody reads this member\n\
        c.json:2:38: l?: nobody reads this member\n\
        c.json:4:1: operators[0].nam: nobody reads this member; did you mean \"name\"?\n\
        c.json:4:9: operators[0].name: no text of at most 256 bytes, so it isn't read\n\
        c.json:4:18: operators[0].zone: nobody reads this member; did you mean \"zone\", beside \"operators\"?\n\
        c.json:4:46: limit: nobody reads this member; did you mean \"limit\", of an operator?\n";
    assert!(rt; finds(alloc, text, wanted)?);
    Ok(())
}

#[test]
fn warns_of_members_that_stand_again(rt: HostRuntime) -> Result<(), Fail> {
    let alloc = rt.alloc();
    let text = "{\"author\":\"city\",\"zone\":\"Z\",\"public\":1,\"x\":1,\"x\":2,\n\
        \"operators\":[{\"id\":\"6f3c2a10-8d55-4b0e-9a51-0c7f4f1f2a01\",\"limit\":500,\"token\":\"scoot\",\n\
        \"name\":5,\"n\\u0061me\":\"Scoot\"},\n\
        {\"id\":\"6f3c2a10-8d55-4b0e-9a51-0c7f4f1f2a02\",\"limit\":500,\"token\":\"roll\"}],\n\
        \"public\":true,\"oversight\":\"all\",\"oversight\":\"none\"}";
    let wanted = "c.json:1:29: public: stands again below, so this one isn't read\n\
        c.json:1:40: x: nobody reads this member\n\
        c.json:1:46: x: nobody reads this member\n\
        c.json:3:1: operators[0].name: stands again below, so this one isn't read\n\
        c.json:5:15: oversight: stands again below, so this one isn't read\n\
        !c.json:5:27: oversight: neither \"none\", \"verdicts\" nor \"vehicles\"\n";
    assert!(rt; finds(alloc, text, wanted)?);
    Ok(())
}

#[test]
fn says_where_a_text_stops_being_json(rt: HostRuntime) -> Result<(), Fail> {
    let alloc = rt.alloc();
    assert!(rt;
        finds(
            alloc,
            "{\"author\": \"city\",\n \"operators\": [1 2]}",
            "!c.json:2:18: not JSON\n"
        )?
    );
    assert!(rt; finds(alloc, "{\"author\":\"city\",}", "!c.json:1:18: not JSON\n")?);
    assert!(rt; finds(alloc, "{\"author\":\"city\"", "!c.json:1:17: not JSON\n")?);
    assert!(rt; finds(alloc, "{\"author\":'city'}", "!c.json:1:11: not JSON\n")?);
    assert!(rt; finds(alloc, "{\"a\":1}\n{}", "!c.json:2:1: not JSON\n")?);
    assert!(rt; finds(alloc, "", "!c.json:1:1: not JSON\n")?);
    assert!(rt; finds(alloc, "\n [1]", "!c.json:2:2: not a JSON object\n")?);
    Ok(())
}

#[test]
fn says_where_a_member_is_wrong(rt: HostRuntime) -> Result<(), Fail> {
    let alloc = rt.alloc();
    let token = ", \"token\": \"scoot\"";
    let limit = city(alloc, "\"500\"", token, "\"Z\"")?;
    assert!(rt;
        finds(
            alloc,
            limit.as_str(),
            "!c.json:4:61: operators[0].limit: not a whole number\n"
        )?
    );
    let missing = city(alloc, "500", "", "\"Z\"")?;
    let wanted =
        "!c.json:4:5: operators[0].token: not an access token (1 to 64 of A-Z a-z 0-9 - _)\n";
    assert!(rt; finds(alloc, missing.as_str(), wanted)?);
    let alike = city(alloc, "500", ", \"token\": \"city\"", "\"Z\"")?;
    assert!(rt;
        finds(
            alloc,
            alike.as_str(),
            "!c.json:4:75: author and operators[0]: the same token\n"
        )?
    );
    let zone = city(alloc, "500", token, "\"PST\", \"nmae\": 1")?;
    let wanted = "!c.json:6:11: zone: not a time zone (Z, +hh:mm, -hh:mm or a POSIX rule)\n\
        c.json:6:18: nmae: nobody reads this member; did you mean \"name\", of an operator?\n";
    assert!(rt; finds(alloc, zone.as_str(), wanted)?);
    let wanted = "!c.json:1:1: author: not an access token (1 to 64 of A-Z a-z 0-9 - _)\n\
        c.json:1:2: auther: nobody reads this member; did you mean \"author\"?\n";
    assert!(rt;
        finds(
            alloc,
            "{\"auther\":\"city\",\"operators\":[],\"zone\":\"Z\"}",
            wanted
        )?
    );
    Ok(())
}

#[test]
fn finds_the_name_of_a_zone(rt: HostRuntime) -> Result<(), Fail> {
    let alloc = rt.alloc();
    let token = ", \"token\": \"scoot\"";
    for (zone, is_name) in [
        ("America/New_York", true),
        ("UTC", true),
        ("EST5EDT", true),
        ("EST5", false),
        ("+05:00", false),
        ("../UTC", false),
    ] {
        let written = format!(in alloc; "\"{zone}\"")?;
        let text = city(alloc, "500", token, written.as_str())?;
        match zone_name_in(alloc, text.as_bytes())? {
            Some(name) => assert!(rt; is_name && name.as_str() == zone),
            None => assert!(rt; !is_name),
        }
    }
    Ok(())
}

#[test]
fn puts_a_rule_in_the_place_of_a_name(rt: HostRuntime) -> Result<(), Fail> {
    let alloc = rt.alloc();
    let token = ", \"token\": \"scoot\"";
    let named = city(
        alloc,
        "500",
        token,
        "\"America/New_York\" \t, \"public\": true",
    )?;
    let ruled = city(
        alloc,
        "500",
        token,
        "\"EST5EDT,M3.2.0,M11.1.0\" \t, \"public\": true",
    )?;
    let new = with_zone(
        alloc,
        named.as_bytes(),
        &rule(alloc, "EST5EDT,M3.2.0,M11.1.0")?,
    )?;
    assert!(rt; new.as_slice() == ruled.as_bytes());
    let none = with_zone(alloc, b"{\"zone\":5}", &rule(alloc, "UTC0")?)?;
    assert!(rt; none.as_slice() == b"{\"zone\":5}".as_slice());
    Ok(())
}

#[test]
fn reviews_by_the_rule(rt: HostRuntime) -> Result<(), Fail> {
    let alloc = rt.alloc();
    let text = city(
        alloc,
        "500",
        ", \"token\": \"scoot\"",
        "\"America/New_York\"",
    )?;
    let ruled = ResolvedZone::Rule(rule(alloc, "EST5EDT,M3.2.0,M11.1.0")?);
    assert!(rt; lines_of(alloc, text.as_str(), &ruled)?.as_str() == "");
    let none = ResolvedZone::Rule(rule(alloc, "nothing")?);
    let wanted = "!c.json:6:11: zone: not a time zone (Z, +hh:mm, -hh:mm or a POSIX rule)\n";
    assert!(rt; lines_of(alloc, text.as_str(), &none)?.as_str() == wanted);
    let missing = ResolvedZone::Fault(ZoneFileFault::Unreadable);
    let wanted = "!c.json:6:11: zone: its file in /usr/share/zoneinfo can't be read\n";
    assert!(rt; lines_of(alloc, text.as_str(), &missing)?.as_str() == wanted);
    Ok(())
}

#[test]
fn names_the_limit_that_is_too_low(rt: HostRuntime) -> Result<(), Fail> {
    let alloc = rt.alloc();
    let text = city(alloc, "20", ", \"token\": \"scoot\"", "\"Z\"")?;
    let Ok(config) = Config::read(alloc, text.as_bytes()) else {
        assert!(rt; false);
        return Ok(());
    };
    let id = Id::read(ID).ok_or(AllocError)?;
    let limits = Limits::of(alloc, &config)?;
    let told = limits.too_low(alloc, id)?.ok_or(AllocError)?;
    let wanted =
        "operators[0].limit: 20 is too low: operator 6f3c2a10-8d55-4b0e-9a51-0c7f4f1f2a01 has held more vehicles";
    assert!(rt; told.as_str() == wanted);
    let other = Id::read("6f3c2a10-8d55-4b0e-9a51-0c7f4f1f2a02").ok_or(AllocError)?;
    assert!(rt; limits.too_low(alloc, other)?.is_none());
    Ok(())
}

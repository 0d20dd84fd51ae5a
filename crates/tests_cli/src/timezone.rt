//! Tests of the names of zones, and of the footers of their files.
use cli_timezone::{ZoneFileFault, ZoneName, ZoneRule, rule_in, zone_message};
use std::alloc::{AllocError, Global};
use std::test::Fail;

/// A file of this version, with these bytes after its header, as a data block and a footer are.
fn file_of(alloc: Global, version: u8, behind: &[u8]) -> Result<Vec<u8>, AllocError> {
    let mut file = Vec::new(alloc);
    file.extend_from_slice(b"TZif")?;
    file.push(version)?;
    for _ in 0..39 {
        file.push(0)?;
    }
    file.extend_from_slice(behind)?;
    Ok(file)
}

/// Whether a text is read as a name.
fn is_name(alloc: Global, text: &str) -> Result<bool, AllocError> {
    Ok(ZoneName::read(alloc, text)?.is_some())
}

/// Whether a file's rule is this.
fn has_rule(alloc: Global, file: &[u8], wanted: &str) -> bool {
    match rule_in(alloc, file) {
        Ok(rule) => rule.as_str() == wanted,
        Err(_) => false,
    }
}

/// Whether a file has no rule, for this reason.
fn has_fault(alloc: Global, file: &[u8], wanted: ZoneFileFault) -> bool {
    match rule_in(alloc, file) {
        Ok(_) => false,
        Err(fault) => fault == wanted,
    }
}

#[test]
fn takes_names(rt: HostRuntime) -> Result<(), Fail> {
    let alloc = rt.alloc();
    for name in [
        "America/New_York",
        "Etc/GMT+5",
        "UTC",
        "America/Port-au-Prince",
        "America/Argentina/Ushuaia",
    ] {
        assert!(rt; is_name(alloc, name)?, "{name}");
    }
    Ok(())
}

#[test]
fn takes_no_other_text(rt: HostRuntime) -> Result<(), Fail> {
    let alloc = rt.alloc();
    for text in [
        "",
        "/etc/passwd",
        "..",
        "../passwd",
        "America/../UTC",
        "America//New_York",
        "America/",
        "a.b",
        "é",
        "a b",
        "+05:00",
    ] {
        assert!(rt; !is_name(alloc, text)?, "{text}");
    }
    Ok(())
}

#[test]
fn reads_the_footer(rt: HostRuntime) -> Result<(), Fail> {
    let alloc = rt.alloc();
    let plain = file_of(alloc, b'2', b"\nEST5EDT,M3.2.0,M11.1.0\n")?;
    assert!(rt; has_rule(alloc, &plain, "EST5EDT,M3.2.0,M11.1.0"));
    // A data block may have line feeds.
    let block = file_of(
        alloc,
        b'3',
        b"\x0a\x00\n5\n\n<-03>3<-02>,M3.5.0/-2,M10.5.0/-1\n",
    )?;
    assert!(rt; has_rule(alloc, &block, "<-03>3<-02>,M3.5.0/-2,M10.5.0/-1"));
    Ok(())
}

#[test]
fn says_why_there_is_no_rule(rt: HostRuntime) -> Result<(), Fail> {
    let alloc = rt.alloc();
    assert!(rt; has_fault(alloc, b"# tzdb data\nEST5EDT\n", ZoneFileFault::NoTzif));
    assert!(rt; has_fault(alloc, b"TZif2", ZoneFileFault::NoTzif));
    assert!(rt;
        has_fault(
            alloc,
            &file_of(alloc, 0, b"\nUTC0\n")?,
            ZoneFileFault::FirstVersion
        )
    );
    assert!(rt;
        has_fault(
            alloc,
            &file_of(alloc, b'2', b"\nUTC0")?,
            ZoneFileFault::NoFooter
        )
    );
    assert!(rt;
        has_fault(
            alloc,
            &file_of(alloc, b'2', b"UTC0\n")?,
            ZoneFileFault::NoFooter
        )
    );
    assert!(rt;
        has_fault(
            alloc,
            &file_of(alloc, b'2', b"\n\n")?,
            ZoneFileFault::NoRule
        )
    );
    assert!(rt;
        has_fault(
            alloc,
            &file_of(alloc, b'2', b"\n\xff\n")?,
            ZoneFileFault::NoText
        )
    );
    assert!(rt;
        has_fault(
            alloc,
            &file_of(alloc, b'2', b"\nU\"\n")?,
            ZoneFileFault::NoText
        )
    );
    Ok(())
}

#[test]
fn tells_the_rule_of_a_name(rt: HostRuntime) -> Result<(), Fail> {
    let alloc = rt.alloc();
    let name = ZoneName::read(alloc, "America/New_York")?.ok_or(AllocError)?;
    let rule = ZoneRule::read(alloc, "EST5EDT,M3.2.0,M11.1.0")?.ok_or(AllocError)?;
    let told = zone_message(alloc, &name, &rule)?;
    let wanted =
        "zone America/New_York is EST5EDT,M3.2.0,M11.1.0 by /usr/share/zoneinfo/America/New_York";
    assert!(rt; told.as_str() == wanted);
    let fault = format!(in alloc; "{}", ZoneFileFault::FirstVersion)?;
    assert!(rt; fault.as_str() == "is a TZif file of version 1, which has no footer");
    Ok(())
}

//! Tests of what a configuration says of the page.
use server_settings::{PageFault, content_policy, page_fault, page_title, settings_text};
use std::alloc::{AllocError, Global};
use std::test::Fail;

/// Addresses of map tiles.
const ADDRESSES: &[&str] = &[
    "https://tiles.example.org/{z}/{x}/{y}.png",
    "http://127.0.0.1:8080/{z}/{y}/{x}?key=a",
];

/// Texts that are no such addresses.
const OTHERS: &[&str] = &[
    "ftp://tiles.example.org/{z}/{x}/{y}.png",
    "https:///{z}/{x}/{y}.png",
    "https://a b/{z}/{x}/{y}.png",
    "https://a;b/{z}/{x}/{y}.png",
    "https://a:/{z}/{x}/{y}.png",
    "https://a/{z}/{x}.png",
    "https://a/{z}/{z}/{x}/{y}.png",
    "https://a/{z}/{x}/{y}.png; script-src *",
    "//t/{z}/{x}/{y}",
];

/// A configuration with a page.
const PAGE: &str = r#"{"page":{"title":"Rules","view":{"lat":45.52,"lng":-122,"zoom":12},
    "tiles":"https://t.example:8443/{z}/{x}/{y}","attribution":1}}"#;

/// What the page reads of it.
const SETTINGS: &str =
    r#"{"city":"Rules","view":{"lat":45.52,"lng":-122,"zoom":12},"tiles":"https://t.example:8443/{z}/{x}/{y}"}"#;

/// The content policy without map tiles.
const NO_TILES: &str =
    "default-src 'none'; script-src 'self'; worker-src 'self'; style-src 'self'; img-src 'self' data:; \
    connect-src 'self'; form-action 'none'; base-uri 'none'; frame-ancestors 'none'";

/// The content policy with the map tiles of that page.
const TILES: &str = "default-src 'none'; script-src 'self'; worker-src 'self'; style-src 'self'; \
    img-src 'self' data: https://t.example:8443; connect-src 'self'; form-action 'none'; base-uri 'none'; \
    frame-ancestors 'none'";

/// Texts that give the page no title.
const UNTITLED: &[&str] = &[
    "{}",
    r#"{"page":{"title":""}}"#,
    r#"{"title":"x"}"#,
    "[]",
    "x",
];

/// Configurations, and what is wrong with their pages.
const FAULTS: &[(&str, Option<PageFault>)] = &[
    ("{}", None),
    (r#"{"page":null}"#, None),
    (r#"{"page":{"title":null,"more":1}}"#, None),
    (r#"{"page":{"view":{"lat":90,"lng":-180,"zoom":22}}}"#, None),
    (r#"{"page":[]}"#, Some(PageFault::NoObject)),
    (r#"{"page":{"title":""}}"#, Some(PageFault::Title)),
    (
        r#"{"page":{"view":{"lat":90.1,"lng":0,"zoom":1}}}"#,
        Some(PageFault::View),
    ),
    (
        r#"{"page":{"view":{"lat":0,"lng":0,"zoom":23}}}"#,
        Some(PageFault::View),
    ),
    (
        r#"{"page":{"attribution":7}}"#,
        Some(PageFault::Attribution),
    ),
];

/// What is wrong with the page whose map tiles are at this address.
fn tiles_fault(alloc: Global, address: &str) -> Result<Option<PageFault>, AllocError> {
    let text = format!(in alloc; "{{\"page\":{{\"tiles\":\"{address}\"}}}}")?;
    page_fault(alloc, text.as_bytes())
}

#[test]
fn tells_addresses_from_other_texts(rt: HostRuntime) -> Result<(), Fail> {
    for address in ADDRESSES {
        assert!(rt; tiles_fault(rt.alloc(), address)? == None, "{address}");
    }
    for text in OTHERS {
        assert!(rt;
            tiles_fault(rt.alloc(), text)? == Some(PageFault::Tiles),
            "{text}"
        );
    }
    Ok(())
}

#[test]
fn reads_a_page(rt: HostRuntime) -> Result<(), Fail> {
    let told = settings_text(rt.alloc(), PAGE.as_bytes())?.expect(&rt, "a page");
    assert!(rt; told.as_slice() == SETTINGS.as_bytes());
    assert!(rt; settings_text(rt.alloc(), b"{\"page\":null}")?.is_none());
    Ok(())
}

#[test]
fn reads_a_title(rt: HostRuntime) -> Result<(), Fail> {
    let text = r#"{"page":{"title":"Zürich","attribution":"City"}}"#;
    let title = page_title(rt.alloc(), text.as_bytes())?.expect(&rt, "a title");
    assert!(rt; title.as_str() == "Zürich");
    for text in UNTITLED {
        assert!(rt;
            page_title(rt.alloc(), text.as_bytes())?.is_none(),
            "{text}"
        );
    }
    Ok(())
}

#[test]
fn names_the_origin_of_tiles(rt: HostRuntime) -> Result<(), Fail> {
    let policy = content_policy(rt.alloc(), b"{}")?;
    assert!(rt; policy.as_slice() == NO_TILES.as_bytes());
    let policy = content_policy(rt.alloc(), PAGE.as_bytes())?;
    assert!(rt; policy.as_slice() == TILES.as_bytes());
    Ok(())
}

#[test]
fn names_what_is_wrong(rt: HostRuntime) -> Result<(), Fail> {
    for (text, fault) in FAULTS {
        assert!(rt;
            page_fault(rt.alloc(), text.as_bytes())? == *fault,
            "{text}"
        );
    }
    Ok(())
}

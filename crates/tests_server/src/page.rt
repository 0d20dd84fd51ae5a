//! Tests of the page's responses.
use http::header::IF_NONE_MATCH;
use http::{HeaderMap, HeaderValue};
use server_page::{File, Page, is_named, tag_of};
use std::alloc::Global;
use std::process::Abort;

/// The SHA-256 of `abc` in quotes (FIPS 180-4, its first example).
const ABC: &[u8] = b"\"ba7816bf8f01cfea414140de5dae2223b00361a396177a9cb410ff61f20015ad\"";

#[test]
fn a_tag_is_the_sum_in_quotes(rt: HostRuntime) {
    let tag = tag_of(rt.alloc(), b"abc").expect(&rt, "memory");
    assert!(rt; tag.as_slice() == ABC);
}

/// RFC 9110, sections 8.8.3.2 and 13.1.2: `*`, lists, and weak tags.
#[test]
fn a_line_names_a_tag(rt: HostRuntime) {
    assert!(rt; is_named(b"*", b"\"a\""));
    assert!(rt; is_named(b"\"a\"", b"\"a\""));
    assert!(rt; is_named(b"\"b\" , W/\"a\"", b"\"a\""));
    assert!(rt; !is_named(b"\"b\", \"aa\"", b"\"a\""));
    assert!(rt; !is_named(b"a", b"\"a\""));
    assert!(rt; !is_named(b"", b"\"a\""));
}

/// The status of the response for the file at a path, if there is one.
fn status_at(
    page: &Page,
    alloc: Global,
    method: &[u8],
    path: &[u8],
    fields: &HeaderMap,
) -> Option<u16> {
    let file = File::at(path)?;
    let told = page.respond(alloc, file, method, fields).ok()?;
    Some(told.status().as_u16())
}

/// Checks the status of the response to a method at a path, if a file is there.
fn expect_status(
    rt: &impl Abort,
    page: &Page,
    alloc: Global,
    asked: (&str, &str),
    fields: &HeaderMap,
    wanted: Option<u16>,
) {
    let (method, path) = (asked.0.as_bytes(), asked.1.as_bytes());
    assert!(rt; status_at(page, alloc, method, path, fields) == wanted);
}

/// The fields of a request that names any tag.
fn any_tag(rt: &impl Abort, alloc: Global) -> HeaderMap {
    let mut fields = HeaderMap::new(alloc);
    let star = HeaderValue::from_static("*");
    let _ = fields.insert(IF_NONE_MATCH, star).expect(rt, "memory");
    fields
}

#[test]
fn the_page_is_read(rt: HostRuntime) {
    let alloc = rt.alloc();
    let page = Page::new(alloc, b"{}").expect(&rt, "memory");
    let none = HeaderMap::new(alloc);
    expect_status(&rt, &page, alloc, ("GET", "/"), &none, Some(200));
    let style = ("HEAD", "/page.css");
    expect_status(&rt, &page, alloc, style, &none, Some(200));
    let zone = ("POST", "/zone.js");
    expect_status(&rt, &page, alloc, zone, &none, Some(405));
    expect_status(&rt, &page, alloc, ("GET", "/policies"), &none, None);
    expect_status(&rt, &page, alloc, ("GET", "/index.html"), &none, None);
    let any = any_tag(&rt, alloc);
    expect_status(&rt, &page, alloc, ("GET", "/"), &any, Some(304));
}

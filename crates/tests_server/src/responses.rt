//! Tests of refusals and their header fields.
use bytes::Bytes;
use futures::executor::block_on;
use futures::future::ready;
use http::header::{ALLOW, WWW_AUTHENTICATE};
use http::{HeaderName, HeaderValue, Response, StatusCode};
use http_body_util::Full;
use server_responses::{HintedReply, Methods, RefusalHint, methods_of, with_refusal_field};
use std::alloc::Global;
use std::process::Abort;

/// An empty response with this status.
fn empty(alloc: Global, status: StatusCode) -> Response<Full<Bytes>> {
    let mut response = Response::new(alloc, Full::new(Bytes::from_static(b"")));
    *response.status_mut() = status;
    response
}

/// Whether a response has a field with this value.
fn has(response: &Response<Full<Bytes>>, name: HeaderName, value: &[u8]) -> bool {
    match response.headers().get(name) {
        Some(field) => field.as_bytes() == value,
        None => false,
    }
}

/// Checks the methods of a path.
fn expect_methods(rt: &impl Abort, path: &str, wanted: Option<Methods>) {
    assert!(rt; methods_of(path) == wanted);
}

#[test]
fn a_path_has_its_methods(rt: HostRuntime) {
    expect_methods(&rt, "/policies", Some(Methods::Get));
    expect_methods(&rt, "/publish", Some(Methods::Post));
    expect_methods(&rt, "/geographies/x", Some(Methods::Get));
    expect_methods(&rt, "/fleet/events", Some(Methods::Post));
    expect_methods(&rt, "/fleet/vehicles/1", Some(Methods::Delete));
    let all = Some(Methods::PutGetDelete);
    expect_methods(&rt, "/drafts/policies/1", all);
    expect_methods(&rt, "/app/fleet/events", Some(Methods::Post));
    expect_methods(&rt, "/app/whoami", Some(Methods::Get));
    expect_methods(&rt, "/policies/", None);
    expect_methods(&rt, "//policies", None);
    expect_methods(&rt, "/policies/1/2", None);
    expect_methods(&rt, "/drafts/policies/1/2", None);
    expect_methods(&rt, "policies", None);
    expect_methods(&rt, "", None);
}

#[test]
fn methods_are_listed(rt: HostRuntime) {
    assert!(rt; Methods::Get.text() == "GET");
    assert!(rt; Methods::PutGetDelete.text() == "PUT, GET, DELETE");
}

/// The response behind a refusal with this status.
fn refusal(
    rt: &impl Abort,
    alloc: Global,
    status: StatusCode,
    hint: RefusalHint,
) -> Response<Full<Bytes>> {
    with_refusal_field(empty(alloc, status), hint).expect(rt, "memory")
}

/// RFC 9110, sections 11.6.1 and 15.5.2.
#[test]
fn a_401_names_the_scheme(rt: HostRuntime) {
    let hint = RefusalHint::without_methods();
    let told = refusal(&rt, rt.alloc(), StatusCode::UNAUTHORIZED, hint);
    assert!(rt; told.status().as_u16() == 401);
    assert!(rt; has(&told, WWW_AUTHENTICATE, b"Bearer"));
    assert!(rt; !told.headers().contains_key(ALLOW));
}

/// RFC 9110, sections 10.2.1 and 15.5.6.
#[test]
fn a_405_names_the_methods(rt: HostRuntime) {
    let hint = RefusalHint::of("/fleet/events");
    let told = refusal(&rt, rt.alloc(), StatusCode::METHOD_NOT_ALLOWED, hint);
    assert!(rt; told.status().as_u16() == 405);
    assert!(rt; has(&told, ALLOW, b"POST"));
    assert!(rt; !told.headers().contains_key(WWW_AUTHENTICATE));
}

/// An empty response with this status, and with the methods GET and HEAD.
fn with_methods(rt: &impl Abort, alloc: Global, status: StatusCode) -> Response<Full<Bytes>> {
    let mut plain = empty(alloc, status);
    let value = HeaderValue::from_static("GET, HEAD");
    let _ = plain
        .headers_mut()
        .insert(ALLOW, value)
        .expect(rt, "memory");
    plain
}

#[test]
fn a_field_is_kept(rt: HostRuntime) {
    let plain = with_methods(&rt, rt.alloc(), StatusCode::METHOD_NOT_ALLOWED);
    let told = with_refusal_field(plain, RefusalHint::of("/publish")).expect(&rt, "memory");
    assert!(rt; has(&told, ALLOW, b"GET, HEAD"));
}

#[test]
fn a_reply_is_guided(rt: HostRuntime) {
    let plain = empty(rt.alloc(), StatusCode::UNAUTHORIZED);
    let reply = HintedReply::new(ready(Ok(plain)), RefusalHint::without_methods());
    let given = block_on(&rt, reply).expect(&rt, "memory");
    let told = given.expect(&rt, "memory");
    assert!(rt; has(&told, WWW_AUTHENTICATE, b"Bearer"));
}

/// Checks that the response behind this status has no fields.
fn expect_bare(rt: &impl Abort, alloc: Global, status: StatusCode, hint: RefusalHint) {
    assert!(rt; refusal(rt, alloc, status, hint).headers().is_empty());
}

#[test]
fn another_status_is_left(rt: HostRuntime) {
    let hint = RefusalHint::of("/policies");
    expect_bare(&rt, rt.alloc(), StatusCode::OK, hint);
}

#[test]
fn a_405_without_methods_names_none(rt: HostRuntime) {
    let hint = RefusalHint::without_methods();
    expect_bare(&rt, rt.alloc(), StatusCode::METHOD_NOT_ALLOWED, hint);
}

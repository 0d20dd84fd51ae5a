//! Which requests are let in.
ghost use Rattle.std.specs.Prelude.{◌≡◌, map, option_map, string_bytes, All, length};
ghost use Rattle.httparse.specs.Spans.{IsHeaderWithin, header_bytes};
ghost use Rattle.server_control.specs.Admission.{field_of, has_field, has_several, is_from_page, admission_at, host_admission, admission_of};

use crate::hosts::{Hosts, is_known, is_name};
use httparse::spans::HeaderSpan;

/// Whether a request is let in.
#[derive(Clone, Copy, Debug, PartialEq, Eq)]
pub(crate) enum Admission {
    /// It is.
    Admitted,
    /// It names no host, or several.
    Malformed,
    /// A page in a browser sends it, or it is for another host.
    Forbidden,
}

/// The value of the first field of this name, in any case of letters.
fn field_of<'b>(bytes: &'b [u8], headers: &[HeaderSpan], name: &str) -> Option<&'b [u8]>
    requires { All (IsHeaderWithin (length bytes.now)) headers.now }
    ensures { option_map (λ value. value.now) result ≡ field_of name.now (map (header_bytes bytes.now) headers.now) }
{
    for header in headers {
        if is_name(name.as_bytes(), header.name.of(bytes)) {
            return Some(header.value.of(bytes));
        }
    }
    None
}

/// Whether there is a field of this name.
fn has_field(bytes: &[u8], headers: &[HeaderSpan], name: &str) -> bool
    requires { All (IsHeaderWithin (length bytes.now)) headers.now }
    ensures { result ≡ has_field name.now (map (header_bytes bytes.now) headers.now) }
{
    field_of(bytes, headers, name).is_some()
}

/// Whether there are several fields of this name.
fn has_several(bytes: &[u8], headers: &[HeaderSpan], name: &str) -> bool
    requires { All (IsHeaderWithin (length bytes.now)) headers.now }
    ensures { result ≡ has_several name.now (map (header_bytes bytes.now) headers.now) }
{
    let mut is_found = false;
    for header in headers {
        if is_name(name.as_bytes(), header.name.of(bytes)) {
            if is_found {
                return true;
            }
            is_found = true;
        }
    }
    false
}

/// Whether a page in a browser sends it: each request of a page for another origin that may change
/// something has an `Origin` (RFC 6454, section 7), and each of its requests to this machine a
/// `Sec-Fetch-Site` (Fetch Metadata, section 2.3).
fn is_from_page(bytes: &[u8], headers: &[HeaderSpan]) -> bool
    requires { All (IsHeaderWithin (length bytes.now)) headers.now }
    ensures { result ≡ is_from_page (map (header_bytes bytes.now) headers.now) }
{
    has_field(bytes, headers, "origin") || has_field(bytes, headers, "sec-fetch-site")
}

/// Whether a request of HTTP/1.`minor` that names this host, or none, is let in.
fn admission_at(names: &[String], minor: u8, host: Option<&[u8]>) -> Admission
    ensures { result ≡ admission_at (map string_bytes names.now) minor (option_map (λ host. host.now) host.entry) }
{
    match host {
        Some(host) if is_known(names, host) => Admission::Admitted,
        Some(_) => Admission::Forbidden,
        None if minor == 0 => Admission::Admitted,
        None => Admission::Malformed,
    }
}

/// Whether a request of HTTP/1.`minor` with these fields is let in by its host (RFC 9112, section
/// 3.2).
fn host_admission(hosts: &Hosts, minor: u8, bytes: &[u8], headers: &[HeaderSpan]) -> Admission
    requires { All (IsHeaderWithin (length bytes.now)) headers.now }
    ensures { result ≡ host_admission hosts.now minor (map (header_bytes bytes.now) headers.now) }
{
    match hosts {
        Hosts::Any => Admission::Admitted,
        Hosts::Named(_) if has_several(bytes, headers, "host") => Admission::Malformed,
        Hosts::Named(names) => admission_at(names, minor, field_of(bytes, headers, "host")),
    }
}

/// Whether a request of HTTP/1.`minor` with these fields is let in.
pub(crate) fn admission_of(
    hosts: &Hosts,
    minor: u8,
    bytes: &[u8],
    headers: &[HeaderSpan],
) -> Admission
    requires { All (IsHeaderWithin (length bytes.now)) headers.now }
    ensures { result ≡ admission_of hosts.now minor (map (header_bytes bytes.now) headers.now) }
{
    if is_from_page(bytes, headers) {
        Admission::Forbidden
    } else {
        host_admission(hosts, minor, bytes, headers)
    }
}

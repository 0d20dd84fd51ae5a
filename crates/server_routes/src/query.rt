//! The moment that a query asks for.
ghost use Rattle.std.specs.Prelude.{◌≡◌, find, option_copied};
ghost use Rattle.server_routes.specs.Query.{begins_at, count_at, is_at, asked_moment, moment_in, only_moment};
ghost use Rattle.server_routes.specs.Query.{parameters, query_of};

use crate::app::query_mark;
use mds_script::moment_of;
use mds_text::Moment;

/// The query of a target: what stands behind the first question mark (RFC 3986, section 3.4).
pub(crate) fn query_of(target: &[u8]) -> &[u8]
    ensures { result.now ≡ query_of target.now }
{
    match query_mark(target) {
        Some(end) => &target[end + 1..],
        None => &[],
    }
}

/// Whether a parameter is named `at` and has a value.
fn begins_at(parameter: &[u8]) -> bool
    ensures { result ≡ begins_at parameter.now }
{
    parameter.starts_with(b"at=".as_slice())
}

/// Whether a parameter is named `at`.
fn is_at(parameter: &[u8]) -> bool
    ensures { result ≡ is_at parameter.now }
{
    parameter == b"at".as_slice() || begins_at(parameter)
}

/// The moment that is the value of a parameter named `at`, in milliseconds since the Unix epoch.
fn moment_in(parameter: &[u8]) -> Option<Moment>
    ensures { result ≡ moment_in parameter.now }
{
    match parameter.split_at_checked(3) {
        Some((name, value)) if name == b"at=".as_slice() => moment_of(value),
        _ => None,
    }
}

/// The first parameter that is named `at`.
fn first_at(query: &[u8]) -> Option<&[u8]>
    ensures { option_copied result ≡ find is_at (parameters query.now) }
{
    query
        .split(|byte| *byte == b'&')
        .find(|parameter| is_at(*parameter))
}

/// How many parameters are named `at`.
fn count_at(query: &[u8]) -> usize
    ensures { result ≡ count_at query.now }
{
    query
        .split(|byte| *byte == b'&')
        .filter(|parameter| is_at(*parameter))
        .count()
}

/// The moment of a parameter named `at`, where there are so many and it is the only one.
fn only_moment(count: usize, parameter: &[u8]) -> Option<Moment>
    ensures { result ≡ only_moment count parameter.now }
{
    if count == 1 {
        moment_in(parameter)
    } else {
        None
    }
}

/// The moment that a query asks for: none where no parameter is named `at`, and none within where there are several,
/// or where the value of the only one isn't 1 to 13 digits of a moment.
pub(crate) fn asked_moment(query: &[u8]) -> Option<Option<Moment>>
    ensures { result ≡ asked_moment query.now }
{
    match first_at(query) {
        Some(parameter) => Some(only_moment(count_at(query), parameter)),
        None => None,
    }
}

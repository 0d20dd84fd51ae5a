//! Whether a rule is open at a local time (MDS 2.0 Policy, `start_time`, `end_time`, `days`).
ghost use Rattle.std.specs.Prelude.{◌≡◌};
ghost use Rattle.mds_policy.specs.Policy.{rule_document};
ghost use Rattle.mds_match.specs.Matching.{is_open, is_listed};

use crate::local::Local;
use mds_policy::{Rule, Window};

/// Whether a rule is open at a local time (MDS 2.0 Policy, rules: `start_time`, `end_time`,
/// `days`). It is open from its start to its end, both included, on the days that it lists. With a
/// start after the end it is open from the start to midnight on a listed day, and from midnight to
/// the end, included, on the day after a listed one. `Zone::local` returns weekdays from 0 to 6; a
/// greater one is never listed.
pub fn open_at(rule: &Rule, local: Local) -> bool
    ensures { result ≡ is_open (rule_document rule.now).window local }
{
    let window = rule.window;
    let today = usize::from(local.weekday);
    if window.start <= window.end {
        is_listed(window, today) && window.start <= local.second && local.second <= window.end
    } else {
        (is_listed(window, today) && window.start <= local.second)
            || (is_listed(window, (today + 6) % 7) && local.second <= window.end)
    }
}

/// Whether this weekday, 0 for Sunday, is one of the window's days.
fn is_listed(window: Window, weekday: usize) -> bool
    ensures { result ≡ is_listed window weekday }
{
    weekday < 7 && window.days[weekday]
}

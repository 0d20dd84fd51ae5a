//! What a rule limits, from its type and its units (MDS 2.0 Policy, rule types and rule units).
ghost use Rattle.std.specs.Prelude.{◌≡◌};
ghost use Rattle.mds_policy.specs.Reading.{kind_of, time_kind};

use crate::rule::{Kind, TimeUnit};
use mds_text::Token;

pub(crate) fn kind_of(rule_type: Token, units: Option<Token>) -> Kind
    ensures { result ≡ kind_of rule_type units }
{
    match rule_type.as_str() {
        "count" => Kind::Count,
        "time" => time_kind(units),
        _ => Kind::Other,
    }
}

fn time_kind(units: Option<Token>) -> Kind
    ensures { result ≡ time_kind units }
{
    let Some(units) = units else {
        return Kind::Other;
    };
    match units.as_str() {
        "seconds" => Kind::Time(TimeUnit::Seconds),
        "minutes" => Kind::Time(TimeUnit::Minutes),
        "hours" => Kind::Time(TimeUnit::Hours),
        "days" => Kind::Time(TimeUnit::Days),
        _ => Kind::Other,
    }
}

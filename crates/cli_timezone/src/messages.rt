//! The message about a named zone.
ghost use Rattle.std.specs.Prelude.{◌≡◌, IfOk, string_bytes};
ghost use Rattle.cli_timezone.specs.Wording.{zone_wording};

use crate::name::ZoneName;
use crate::rule::ZoneRule;
use std::alloc::{AllocError, Global};

/// Which rule a name means, and by which file: `zone America/New_York is EST5EDT,M3.2.0,M11.1.0 by
/// /usr/share/zoneinfo/America/New_York`.
///
/// # Errors
///
/// Out of memory.
pub fn zone_message(alloc: Global, name: &ZoneName, rule: &ZoneRule) -> Result<String, AllocError>
    ensures { IfOk result (λ told. string_bytes told ≡ zone_wording name.now rule.now) }
{
    let path = name.path(alloc)?;
    let mut told = String::from_str(alloc, "zone ")?;
    told.push_str(name.as_str())?;
    told.push_str(" is ")?;
    told.push_str(rule.as_str())?;
    told.push_str(" by ")?;
    told.push_str(path.as_str())?;
    Ok(told)
}

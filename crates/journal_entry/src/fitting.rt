//! Whether a server may continue from a journal with a configuration.
ghost use Rattle.std.specs.Prelude.{◌≡◌, map, find, option_map, option_copied};
ghost use Rattle.std.specs.Result.{result_err};
ghost use Rattle.mds_request.specs.Configuration.{configuration, operator as named};
ghost use Rattle.journal_entry.specs.Heads.{share_of, unfit, unfit_at, unfit_by};
ghost use Rattle.journal_entry.specs.Requests.{has_id};

use crate::entry_requests::is_same;
use crate::head::OperatorShare;
use mds_request::{Config, Operator};
use mds_text::Id;

/// Why a server can't continue with a configuration.
#[derive(Clone, Copy, PartialEq, Eq)]
pub enum Unfit {
    /// The operator of this identifier has entries, and isn't in the configuration.
    Missing(Id),
    /// The operator of this identifier has held more vehicles than its limit allows.
    LowLimit(Id),
}

/// The operator with this identifier.
fn operator_of(operators: &[Operator], id: Id) -> Option<&Operator>
    ensures { option_copied result ≡ find (λ o. has_id id (named o)) operators.now }
{
    operators.iter().find(|operator| is_same(operator.id, id))
}

/// Why an operator's share doesn't fit its operator in a configuration; none, where it does.
fn unfit_at(share: &OperatorShare, operator: Option<&Operator>) -> Option<Unfit>
    ensures { result ≡ unfit_at (share_of share.now) (option_map named (option_copied operator.entry)) }
{
    match operator {
        None => Some(Unfit::Missing(share.id)),
        Some(operator) if share.vehicles as usize <= operator.limit => None,
        Some(_) => Some(Unfit::LowLimit(share.id)),
    }
}

/// Why an operator's share doesn't fit a configuration; none, where it does.
fn unfit_by(config: &Config, share: &OperatorShare) -> Option<Unfit>
    ensures { result ≡ unfit_by (configuration config.now) (share_of share.now) }
{
    unfit_at(share, operator_of(config.operators(), share.id))
}

/// Whether a server may continue with a configuration, where these operators have entries, and held at most so many
/// vehicles at once. Other access tokens, another zone, a higher limit or a further operator don't matter. With the
/// shares of a head, which are limits, this asks for more than is needed: that no limit is lowered at all.
///
/// # Errors
///
/// The first share that doesn't fit the configuration.
pub fn fits(config: &Config, shares: &[OperatorShare]) -> Result<(), Unfit>
    ensures { result_err result ≡ unfit (configuration config.now) (map share_of shares.now) }
{
    for share in shares {
        if let Some(unfit) = unfit_by(config, share) {
            return Err(unfit);
        }
    }
    Ok(())
}

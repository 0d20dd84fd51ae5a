//! One public document.
ghost use Rattle.std.specs.Prelude.{◌≡◌, IfOk};
ghost use Rattle.mds_catalog.specs.Catalogue.{lent_policy, lent_geography, publications_of};
ghost use Rattle.server_public.specs.Documents.{geography_notice, policy_notice};
ghost use Rattle.server_public.specs.View.{notice};
ghost use Rattle.server_public.specs.Withdrawal.{earlier, ends, withdrawn_from};

use crate::with_end::public_policy;
use mds_catalog::{Catalogue, Published};
use mds_geography::Geography;
use mds_policy::Policy;
use mds_text::{Id, Moment, print_tree};
use std::alloc::{AllocError, Global};

/// A public document as text, with the moments, in milliseconds since the Unix epoch, from which on and up to which it
/// holds.
#[derive(Drop)]
pub struct PublicDocument {
    /// Its identifier.
    pub id: Id,
    /// From when on it holds; of a geography, when it was published.
    pub start: u64,
    /// Up to when it holds; none where it has no end.
    pub end: Option<u64>,
    /// Its JSON text.
    pub text: Vec<u8>,
}

/// The milliseconds of a moment.
pub(crate) fn millis(moment: Moment) -> u64
    ensures { result ≡ moment }
{
    moment.get() as u64
}

/// The milliseconds of a moment, if there is one.
fn some_millis(moment: Option<Moment>) -> Option<u64>
    ensures { result ≡ moment }
{
    match moment {
        Some(moment) => Some(millis(moment)),
        None => None,
    }
}

/// The earlier of a moment and another, if there is one.
pub(crate) fn earlier(moment: Moment, known: Option<Moment>) -> Moment
    ensures { result ≡ earlier moment known }
{
    match known {
        Some(known) if known <= moment => known,
        _ => moment,
    }
}

/// When a policy ends that may be withdrawn.
fn ends(withdrawn: Option<Moment>, end: Option<Moment>) -> Option<Moment>
    ensures { result ≡ ends withdrawn end }
{
    match withdrawn {
        Some(moment) => Some(earlier(moment, end)),
        None => end,
    }
}

/// The first moment at which the policy of this identifier is withdrawn.
pub(crate) fn withdrawal_moment(catalogue: &Catalogue, id: Id) -> Option<Moment>
    ensures { result ≡ withdrawn_from (publications_of catalogue.now) id }
{
    catalogue.withdrawal_moment(id)
}

impl PublicDocument {
    /// A published policy, with its end if it is withdrawn.
    ///
    /// # Errors
    ///
    /// Out of memory.
    pub fn of_policy(
        alloc: Global,
        catalogue: &Catalogue,
        policy: &Published<'_, Policy>,
    ) -> Result<PublicDocument, AllocError>
        ensures { IfOk result (λ n. notice n ≡ policy_notice (publications_of catalogue.now) (lent_policy policy.now)) }
    {
        let document = policy.document;
        let withdrawn = withdrawal_moment(catalogue, document.id());
        let told = public_policy(alloc, policy, withdrawn)?;
        Ok(PublicDocument {
            id: document.id(),
            start: millis(document.start()),
            end: some_millis(ends(withdrawn, document.end())),
            text: print_tree(alloc, &told)?,
        })
    }

    /// A published geography.
    ///
    /// # Errors
    ///
    /// Out of memory.
    pub fn of_geography(
        alloc: Global,
        geography: &Published<'_, Geography>,
    ) -> Result<PublicDocument, AllocError>
        ensures { IfOk result (λ n. notice n ≡ geography_notice (lent_geography geography.now)) }
    {
        let served = geography.document.served(alloc, Some(geography.moment))?;
        Ok(PublicDocument {
            id: geography.document.id(),
            start: millis(geography.moment),
            end: None,
            text: print_tree(alloc, &served)?,
        })
    }
}

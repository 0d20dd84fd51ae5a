//! Makes the public documents of a catalogue's publications.
ghost use Rattle.std.specs.Prelude.{◌≡◌, map, IfOk};
ghost use Rattle.std.specs.List.{list_any};
ghost use Rattle.mds_catalog.specs.Catalogue.{lent_policy, lent_geography, publications_of};
ghost use Rattle.mds_policy.specs.Policy.{rule_document};
ghost use Rattle.mds_catalog.specs.Publication.{is_among};
ghost use Rattle.server_public.specs.Body.{body_text};
ghost use Rattle.server_public.specs.Documents.{face_of, geography_notice, is_public, last, names, policy_notice};
ghost use Rattle.server_public.specs.Documents.{public_geographies, public_policies, touched};
ghost use Rattle.server_public.specs.View.{face, notice};

use crate::body::body_of;
use crate::public_document::{PublicDocument, millis, withdrawal_moment};
use crate::public_documents::{GEOGRAPHIES, POLICIES, PublicDocuments};
use bytes::Bytes;
use mds_catalog::{Catalogue, Published};
use mds_geography::Geography;
use mds_policy::{Policy, Rule};
use mds_text::Id;
use std::alloc::{AllocError, Global};

/// Whether a policy is meant for everyone: it names no operator.
fn is_public(policy: &Published<'_, Policy>) -> bool
    ensures { result ≡ is_public (lent_policy policy.now) }
{
    policy.document.providers().is_empty()
}

/// Whether one of these rules names the geography of this identifier.
fn is_in_rules(rules: &[Rule], id: Id) -> bool
    ensures { result ≡ list_any (λ rule. is_among (rule_document rule).geographies id) rules.now }
{
    rules.iter().any(|rule| rule.geographies.contains(&id))
}

/// Whether a rule of a policy names the geography of this identifier.
fn names(id: Id, policy: &Published<'_, Policy>) -> bool
    ensures { result ≡ names id (lent_policy policy.now) }
{
    is_in_rules(policy.document.rules(), id)
}

/// Whether one of these policies names the geography of this identifier.
fn is_named(policies: &[Published<'_, Policy>], id: Id) -> bool
    ensures { result ≡ list_any (λ p. names id (lent_policy p)) policies.now }
{
    policies.iter().any(|policy| names(id, policy))
}

/// The policies that are meant for everyone.
fn public_policies(
    alloc: Global,
    catalogue: &Catalogue,
) -> Result<Vec<Published<'_, Policy>>, AllocError>
    ensures { IfOk result (λ v. map lent_policy v.items ≡ public_policies (publications_of catalogue.now)) }
{
    let mut policies = catalogue.policies(alloc, None)?;
    policies.retain(|policy| is_public(policy));
    Ok(policies)
}

/// The geographies that these policies name.
fn named_geographies<'a>(
    alloc: Global,
    catalogue: &'a Catalogue,
    policies: &[Published<'_, Policy>],
) -> Result<Vec<Published<'a, Geography>>, AllocError>
    requires { map lent_policy policies.now ≡ public_policies (publications_of catalogue.now) }
    ensures { IfOk result (λ v. map lent_geography v.items ≡ public_geographies (publications_of catalogue.now)) }
{
    let mut geographies = catalogue.geographies(alloc)?;
    geographies.retain(|geography| is_named(policies, geography.document.id()));
    Ok(geographies)
}

/// The public document of each policy.
fn policy_documents(
    alloc: Global,
    catalogue: &Catalogue,
    policies: &[Published<'_, Policy>],
) -> Result<Vec<PublicDocument>, AllocError>
    ensures { IfOk result (λ v. map notice v.items
        ≡ map (policy_notice (publications_of catalogue.now)) (map lent_policy policies.now)) }
{
    let mut notices = Vec::with_capacity(alloc, policies.len())?;
    for policy in policies {
        notices.push(PublicDocument::of_policy(alloc, catalogue, policy)?)?;
    }
    Ok(notices)
}

/// The public document of each geography.
fn geography_documents(
    alloc: Global,
    geographies: &[Published<'_, Geography>],
) -> Result<Vec<PublicDocument>, AllocError>
    ensures { IfOk result (λ v. map notice v.items ≡ map geography_notice (map lent_geography geographies.now)) }
{
    let mut notices = Vec::with_capacity(alloc, geographies.len())?;
    for geography in geographies {
        notices.push(PublicDocument::of_geography(alloc, geography)?)?;
    }
    Ok(notices)
}

/// When a policy was published, or withdrawn if that was later.
fn last_change(catalogue: &Catalogue, policy: &Published<'_, Policy>) -> u64
    ensures { result ≡ touched (publications_of catalogue.now) (lent_policy policy.now) }
{
    let published = millis(policy.moment);
    match withdrawal_moment(catalogue, policy.document.id()) {
        Some(moment) => published.max(millis(moment)),
        None => published,
    }
}

/// When one of these policies was published or withdrawn last.
fn last_update(catalogue: &Catalogue, policies: &[Published<'_, Policy>]) -> u64
    ensures { result ≡ last 0 (map (touched (publications_of catalogue.now)) (map lent_policy policies.now)) }
{
    let mut updated = 0;
    for policy in policies {
        updated = last_change(catalogue, policy).max(updated);
    }
    updated
}

/// The text of each document.
fn texts_of<'a>(alloc: Global, notices: &'a [PublicDocument]) -> Result<Vec<&'a [u8]>, AllocError>
    ensures { IfOk result (λ v. map (λ t. t.now) v.items ≡ map (λ n. n.text.items) notices.now) }
{
    let mut texts = Vec::with_capacity(alloc, notices.len())?;
    for notice in notices {
        let text: &[u8] = &notice.text;
        match texts.push(text) {
            Ok(()) => {}
            Err(_) => return Err(AllocError),
        }
    }
    Ok(texts)
}

/// A body of all of these documents.
fn list_body(
    alloc: Global,
    name: &str,
    notices: &[PublicDocument],
    updated: u64,
) -> Result<Bytes, AllocError>
    ensures { IfOk result (λ b. b ≡ body_text name.now (map (λ n. n.text.items) notices.now) updated) }
{
    let texts = texts_of(alloc, notices)?;
    body_of(alloc, name, &texts, updated)
}

impl PublicDocuments {
    /// The public documents of a catalogue's publications. They are made once a publication, since that prints each
    /// document.
    ///
    /// # Errors
    ///
    /// Out of memory.
    pub fn new(alloc: Global, catalogue: &Catalogue) -> Result<PublicDocuments, AllocError>
        ensures { IfOk result (λ f. face f ≡ face_of (publications_of catalogue.now)) }
    {
        let policies = public_policies(alloc, catalogue)?;
        let geographies = named_geographies(alloc, catalogue, &policies)?;
        let updated = last_update(catalogue, &policies);
        let policies = policy_documents(alloc, catalogue, &policies)?;
        let geographies = geography_documents(alloc, &geographies)?;
        let all_policies = list_body(alloc, POLICIES, &policies, updated)?;
        let all_geographies = list_body(alloc, GEOGRAPHIES, &geographies, updated)?;
        Ok(PublicDocuments {
            policies,
            geographies,
            updated,
            all_policies,
            all_geographies,
        })
    }
}

//! The answer to a request for the public documents.
ghost use Rattle.std.specs.Prelude.{◌≡◌, ◌∷◌, ◌++◌, [], bytes_eq, filter, find, map, option_copied, option_map, IfOk, OnOk};
ghost use Rattle.server_public.specs.Answer.{Meets, answer_of, found, one_told, policies_told, sought};
ghost use Rattle.server_public.specs.View.{face, notice};
ghost use Rattle.server_public.specs.Period.{is_in};

use crate::accept_field::is_accepted;
use crate::body::body_of;
use crate::period::Period;
use crate::public_document::PublicDocument;
use crate::public_documents::{GEOGRAPHIES, POLICIES, PublicDocuments};
use crate::refusal::{PublicFault, Refusal};
use bytes::Bytes;
use http::HeaderMap;
use mds_text::Id;
use server_routes::PublicTarget;
use std::alloc::{AllocError, Global};

/// Adds the text of a document, where it holds in the period.
fn add<'a>(
    texts: &mut Vec<&'a [u8]>,
    sheet: &'a PublicDocument,
    period: &Period,
) -> Result<(), AllocError>
    ensures { OnOk result (map (λ t. t.now) texts.new.items
        ≡ map (λ t. t.now) texts.old.items ++ map (λ n. n.text) (filter (is_in period.now) (notice sheet.now ∷ []))) }
{
    if !period.holds(sheet) {
        return Ok(());
    }
    let text: &[u8] = &sheet.text;
    match texts.push(text) {
        Ok(()) => Ok(()),
        Err(_) => Err(AllocError),
    }
}

/// The texts of the documents that hold in a period.
fn texts_in<'a>(
    alloc: Global,
    notices: &'a [PublicDocument],
    period: &Period,
) -> Result<Vec<&'a [u8]>, AllocError>
    ensures { IfOk result (λ v. map (λ t. t.now) v.items ≡ map (λ n. n.text) (filter (is_in period.now) (map notice notices.now))) }
{
    let mut texts = Vec::new(alloc);
    for notice in notices {
        add(&mut texts, notice, period)?;
    }
    Ok(texts)
}

/// The first of these documents with this identifier.
fn of_id(notices: &[PublicDocument], id: Id) -> Option<&PublicDocument>
    ensures { option_copied result ≡ find (λ n. bytes_eq n.id id) notices.now }
{
    notices.iter().find(|sheet| sheet.id == id)
}

/// The first of these documents with this identifier, if there is one.
fn document_with(notices: &[PublicDocument], id: Option<Id>) -> Option<&PublicDocument>
    ensures { option_map (λ n. notice n.now) result ≡ sought (map notice notices.now) id }
{
    match id {
        Some(id) => of_id(notices, id),
        None => None,
    }
}

/// A body of one document under its name.
fn document_body(
    alloc: Global,
    name: &str,
    found: Option<&PublicDocument>,
    updated: u64,
) -> Result<Bytes, PublicFault>
    ensures { Meets (one_told name.now (option_map (λ n. notice n.now) found.entry) updated) result }
{
    let Some(notice) = found else {
        return Err(PublicFault::Refused(Refusal::NotFound));
    };
    let body = body_of(alloc, name, &[notice.text.as_slice()], updated)?;
    Ok(body)
}

impl PublicDocuments {
    /// The policies that hold in a period.
    fn policies_body(&self, alloc: Global, period: Option<Period>) -> Result<Bytes, PublicFault>
        ensures { Meets (policies_told (face self.now) period) result }
    {
        let Some(period) = period else {
            return Err(PublicFault::Refused(Refusal::BadParameter));
        };
        let texts = texts_in(alloc, &self.policies, &period)?;
        let body = body_of(alloc, POLICIES, &texts, self.updated)?;
        Ok(body)
    }

    /// The body that a request asks for.
    fn body_for(
        &self,
        alloc: Global,
        asked: PublicTarget,
        query: &[u8],
    ) -> Result<Bytes, PublicFault>
        ensures { Meets (found (face self.now) asked query.now) result }
    {
        match asked {
            PublicTarget::Policies if query.is_empty() => Ok(self.all_policies.clone()?),
            PublicTarget::Policies => self.policies_body(alloc, Period::read(query)),
            PublicTarget::Policy(id) => {
                document_body(
                    alloc,
                    POLICIES,
                    document_with(&self.policies, id),
                    self.updated,
                )
            }
            PublicTarget::Geographies => Ok(self.all_geographies.clone()?),
            PublicTarget::Geography(id) => {
                document_body(
                    alloc,
                    GEOGRAPHIES,
                    document_with(&self.geographies, id),
                    self.updated,
                )
            }
        }
    }

    /// The body of the response to a request with this method, query and fields. Both lists, where no period is asked
    /// for, are shared and not copied.
    ///
    /// # Errors
    ///
    /// `Refused` with the first of these: another method than `GET` and `HEAD`, a field `accept` that accepts no
    /// response of this version, a moment in the query that is none, nothing of this identifier; `NoMemory`.
    pub fn answer(
        &self,
        alloc: Global,
        asked: PublicTarget,
        method: &[u8],
        query: &[u8],
        headers: &HeaderMap,
    ) -> Result<Bytes, PublicFault>
        ensures { Meets (answer_of (face self.now) asked method.now query.now headers.now) result }
    {
        match method {
            b"GET" | b"HEAD" if is_accepted(headers) => self.body_for(alloc, asked, query),
            b"GET" | b"HEAD" => Err(PublicFault::Refused(Refusal::NotAcceptable)),
            _ => Err(PublicFault::Refused(Refusal::Method)),
        }
    }
}

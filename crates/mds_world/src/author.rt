//! The calls of the author.
ghost use Rattle.std.specs.Prelude.{◌≡◌, ◌≤◌, length, IfOk, OnErr, IsTrue};
ghost use Rattle.mds_text.specs.Printed.{printed};
ghost use Rattle.mds_text.specs.View.{view};
ghost use Rattle.mds_catalog.specs.Catalogue.{publications_of};
ghost use Rattle.mds_drafts.specs.Entries.{document_of as draft_document};
ghost use Rattle.mds_drafts.specs.Values.{drafts_of};
ghost use Rattle.mds_request.specs.Request.{request_of};
ghost use Rattle.mds_request.specs.Reply.{is_line};
ghost use Rattle.mds_machine.specs.Answer.{Gives};
ghost use Rattle.mds_machine.specs.Author.{document_of, put_word, put_draft, draft_served, draft_answer, drop_draft, publish, author_does};
ghost use Rattle.mds_machine.specs.Bodies.{result_json};
ghost use Rattle.mds_world.specs.Acts.{outcome, IsOpen};
ghost use Rattle.mds_world.specs.Denied.{Meets};
ghost use Rattle.mds_world.specs.declared.bodies.TheConstants.{SHORT_BODY};

use crate::bodies::{body_buffer, draft_reply, published_reply, removed_reply, success_in};
use crate::call_fault::CallFault;
use crate::published::{geographies, geography, policies, policy};
use mds_catalog::{Batch, Catalogue};
use mds_drafts::{Draft, Drafts, PublishList, Put};
use mds_geography::Geography;
use mds_request::{AuthorCall, Code, Reply, Request};
use mds_text::{DraftKind, Id, Tree};
use std::alloc::{AllocError, Global};
use std::sync::Arc;

/// The result of a call of the author.
#[derive(Drop)]
pub enum AuthorAct {
    /// The reply; the drafts are already as they are after the call.
    Answer(Reply),
    /// This batch, which is lawful after the catalogue's publications, is still to be published,
    /// and this is the reply afterwards. The caller publishes it and then removes its drafts;
    /// nothing has changed yet.
    Publish(Arc<Batch>, Reply),
}

/// The body of the reply to a put.
fn put_body(put: Put) -> &'static [u8]
    ensures body { result.now ≡ printed (result_json (put_word put)) }
    ensures short { length result.now ≤ SHORT_BODY }
    ensures line { IsTrue (is_line result.now) }
{
    match put {
        Put::New => b"{\"result\":\"new\"}",
        Put::Replaced => b"{\"result\":\"replaced\"}",
    }
}

/// Reads a text as a document of this kind, as a draft.
fn document(
    alloc: Global,
    drafts: &mut Drafts,
    kind: DraftKind,
    text: &[u8],
) -> Result<Draft, CallFault>
    ensures read { Meets draft_document result (document_of kind text.now) }
    ensures drafts { drafts_of drafts.new ≡ drafts_of drafts.old }
{
    match kind {
        DraftKind::Policy => {
            let policy = drafts.read_policy(alloc, text)?;
            Ok(Draft::Policy(Arc::new(alloc, policy)?))
        }
        DraftKind::Geography => {
            let geography = Geography::read(alloc, text)?;
            Ok(Draft::Geography(Arc::new(alloc, geography)?))
        }
    }
}

/// Puts a draft with its own identifier, which must be this one. Memory for the reply is allocated
/// before the change.
fn put_draft(
    alloc: Global,
    drafts: &mut Drafts,
    kind: DraftKind,
    id: Id,
    text: &[u8],
) -> Result<Reply, CallFault>
    ensures answer { Meets (λ r. (r, drafts_of drafts.new)) result (put_draft (drafts_of drafts.old) kind id text.now) }
    ensures refused { OnErr result (drafts_of drafts.new ≡ drafts_of drafts.old) }
{
    let draft = document(alloc, drafts, kind, text)?;
    if draft.id() != id {
        return Err(CallFault::Refused(Code::IdMismatch));
    }
    let body = body_buffer(alloc)?;
    let put = drafts.put(draft)?;
    Ok(success_in(body, put_body(put)))
}

/// A draft as it is served.
fn served_tree(alloc: Global, draft: &Draft) -> Result<Tree, AllocError>
    ensures { IfOk result (λ t. view t ≡ draft_served (draft_document draft.now)) }
{
    match draft {
        Draft::Policy(policy) => policy.served(alloc, None),
        Draft::Geography(geography) => geography.served(alloc, None),
    }
}

/// The reply to a request for a draft.
fn show_draft(alloc: Global, drafts: &Drafts, kind: DraftKind, id: Id) -> Result<Reply, CallFault>
    ensures { Meets (λ r. r) result (draft_answer (drafts_of drafts.now) kind id) }
{
    let Some(draft) = drafts.get(kind, id) else {
        return Err(CallFault::Refused(Code::NoDraft));
    };
    let reply = draft_reply(alloc, served_tree(alloc, draft)?)?;
    Ok(reply)
}

/// Drops a draft. The reply is made before the change.
fn drop_draft(
    alloc: Global,
    drafts: &mut Drafts,
    kind: DraftKind,
    id: Id,
) -> Result<Reply, CallFault>
    ensures answer { Meets (λ r. (r, drafts_of drafts.new)) result (drop_draft (drafts_of drafts.old) kind id) }
    ensures refused { OnErr result (drafts_of drafts.new ≡ drafts_of drafts.old) }
{
    let reply = removed_reply(alloc, id)?;
    match drafts.drop_draft(kind, id) {
        Ok(()) => Ok(reply),
        Err(_) => Err(CallFault::Refused(Code::NoDraft)),
    }
}

/// The batch of a publish request, and the reply to it.
fn publish(
    alloc: Global,
    drafts: &Drafts,
    catalogue: &Catalogue,
    request: &Request<'_>,
) -> Result<AuthorAct, CallFault>
    ensures answer { Meets (outcome (drafts_of drafts.now) (publications_of catalogue.now)) result
        (publish (drafts_of drafts.now) (publications_of catalogue.now) (request_of request.now)) }
    ensures lawful { IfOk result (IsOpen (drafts_of drafts.now) (publications_of catalogue.now) (drafts_of drafts.now)) }
{
    let list = PublishList::read(alloc, request.body)?;
    let batch = drafts.batch(alloc, &list, catalogue, request.at)?;
    let reply = published_reply(alloc, request.at, catalogue.revision() + 1)?;
    Ok(AuthorAct::Publish(Arc::new(alloc, batch)?, reply))
}

/// The result of a call of the author, unless it is refused.
fn act(
    alloc: Global,
    drafts: &mut Drafts,
    catalogue: &Catalogue,
    call: &AuthorCall,
    request: &Request<'_>,
) -> Result<AuthorAct, CallFault>
    ensures answer { Meets (outcome (drafts_of drafts.new) (publications_of catalogue.now)) result
        (author_does (drafts_of drafts.old) (publications_of catalogue.now) call.now (request_of request.now)) }
    ensures lawful { IfOk result (IsOpen (drafts_of drafts.old) (publications_of catalogue.now) (drafts_of drafts.new)) }
    ensures refused { OnErr result (drafts_of drafts.new ≡ drafts_of drafts.old) }
{
    match *call {
        AuthorCall::Policies => Ok(AuthorAct::Answer(policies(alloc, catalogue, None)?)),
        AuthorCall::Policy(id) => Ok(AuthorAct::Answer(policy(alloc, catalogue, None, id)?)),
        AuthorCall::Geographies => Ok(AuthorAct::Answer(geographies(alloc, catalogue)?)),
        AuthorCall::Geography(id) => Ok(AuthorAct::Answer(geography(alloc, catalogue, id)?)),
        AuthorCall::PutDraft(kind, id) => {
            Ok(AuthorAct::Answer(put_draft(alloc, drafts, kind, id, request.body)?))
        }
        AuthorCall::Draft(kind, id) => Ok(AuthorAct::Answer(show_draft(alloc, drafts, kind, id)?)),
        AuthorCall::DropDraft(kind, id) => Ok(AuthorAct::Answer(drop_draft(
            alloc, drafts, kind, id,
        )?)),
        AuthorCall::Publish => publish(alloc, drafts, catalogue, request),
    }
}

/// Answers a call of the author, over the drafts and the published catalogue, or returns the batch
/// that is to be published.
///
/// The reply is a success, the first refusal that applies, or 503 `no_memory`; a call without
/// success changes nothing.
pub fn author_step(
    alloc: Global,
    drafts: &mut Drafts,
    catalogue: &Catalogue,
    call: &AuthorCall,
    request: &Request<'_>,
) -> AuthorAct
    // once a batch that is to be published is published, and its drafts are removed, the state is
    // the defined one
    ensures answer { let after = outcome (drafts_of drafts.new) (publications_of catalogue.now) result in
        Gives (Unit {0}) (drafts_of drafts.old, publications_of catalogue.now)
        (author_does (drafts_of drafts.old) (publications_of catalogue.now) call.now (request_of request.now)) after.0 after.1 }
    ensures lawful { IsOpen (drafts_of drafts.old) (publications_of catalogue.now) (drafts_of drafts.new) result }
{
    match act(alloc, drafts, catalogue, call, request) {
        Ok(act) => act,
        Err(denied) => AuthorAct::Answer(Reply::from(denied)),
    }
}

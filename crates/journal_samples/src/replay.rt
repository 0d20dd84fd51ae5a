//! The replay of a journal for one operator, with samples at moments and replies to its calls.
ghost use Rattle.std.specs.Prelude.{◌≡◌, ◌<◌, ◌≤◌, length, map, Some, IfOk, OnOk};
ghost use Rattle.mds_request.specs.Configuration.{configuration};
ghost use Rattle.journal_entry.specs.Entries.{entry_of};
ghost use Rattle.journal_folder.specs.Choosing.{in_time};
ghost use Rattle.journal_samples.specs.Samples.{ascends};
ghost use Rattle.journal_samples.specs.Standing.{counts};

use crate::fault::SampleFault;
use crate::sample::RuleSample;
use crate::standing::OperatorStanding;
use journal_entry::{JournalEntry, actor_by, request_by};
use mds_catalog::Catalogue;
use mds_request::{Actor, Config, OperatorCall, Reply, Request};
use mds_text::Moment;
use std::alloc::{AllocError, Global};

/// The replay of a journal for one operator: entries of the author and of this operator are answered again, each at its
/// own moment; those of others change nothing that this operator is told, and are left out.
#[derive(Drop)]
pub struct OperatorReplay<'a> {
    standing: OperatorStanding<'a>,
}

/// Whether a client is the author, or the operator at this place.
fn counts(place: usize, actor: Actor) -> bool
    ensures { result ≡ counts place actor }
{
    match actor {
        Actor::Author => true,
        Actor::Operator(other) => other == place,
        Actor::Nobody => false,
    }
}

/// Whether moments ascend.
fn ascends(moments: &[Moment]) -> bool
    ensures { result ≡ ascends 0 moments.now }
{
    let mut last = 0;
    for at in moments {
        let millis = at.get().unsigned_abs();
        if millis < last {
            return false;
        }
        last = millis;
    }
    true
}

impl<'a> OperatorReplay<'a> {
    ghost use Rattle.mds_catalog.specs.Catalogue.{publications_of};
    ghost use Rattle.journal_samples.specs.Samples.{samples_by};
    ghost use Rattle.journal_samples.specs.Standing.{after_entries, after_entry, new_standing};
    ghost use Rattle.journal_samples.specs.Held.{standing_of};
    ghost use Rattle.journal_samples.specs.Replies.{IsReplyAt};
    ghost use Rattle.mds_request.specs.Request.{request_of};

    /// A replay that has answered nothing, for the operator at this place of the configuration.
    ///
    /// # Errors
    ///
    /// Out of memory.
    pub fn new(
        alloc: Global,
        config: &'a Config,
        place: usize,
    ) -> Result<OperatorReplay<'a>, AllocError>
        requires { place < length (configuration config.now).operators }
        ensures { IfOk result (λ r. standing_of r.standing ≡ new_standing (configuration config.now) place) }
    {
        let standing = OperatorStanding::new(alloc, config, place)?;
        Ok(OperatorReplay { standing })
    }

    /// Answers an entry again, if it is the author's or the operator's.
    ///
    /// # Errors
    ///
    /// The status of an answer that is no success.
    fn replay_entry(&mut self, alloc: Global, entry: &JournalEntry<'_>) -> Result<(), u16>
        ensures { OnOk result (standing_of self.new.standing ≡ after_entry (standing_of self.old.standing) (entry_of entry.now)) }
    {
        let config = self.standing.config;
        if !counts(self.standing.place, actor_by(config, entry.client)) {
            return Ok(());
        }
        match request_by(config, entry) {
            Some(request) => self.standing.answer(alloc, &request),
            None => Ok(()),
        }
    }

    /// Answers entries again up to the first that is later than this moment, and returns how many these are.
    ///
    /// # Errors
    ///
    /// The first entry that isn't answered with success, by its index in front of which `before` more stand.
    fn advance(
        &mut self,
        alloc: Global,
        before: usize,
        entries: &[JournalEntry<'_>],
        at: Moment,
    ) -> Result<usize, SampleFault>
        ensures count { IfOk result (λ count. count ≡ length (in_time (Some at) (map entry_of entries.now))) }
        ensures standing { OnOk result (standing_of self.new.standing
            ≡ after_entries (standing_of self.old.standing) (in_time (Some at) (map entry_of entries.now))) }
        ensures within { IfOk result (λ count. count ≤ length entries.now) }
    {
        for (number, entry) in entries.iter().enumerate() {
            if entry.at > at {
                return Ok(number);
            }
            if let Err(status) = self.replay_entry(alloc, entry) {
                return Err(SampleFault::Refused(before.saturating_add(number), status));
            }
        }
        Ok(entries.len())
    }

    /// The samples of the operator at these moments, which ascend: each over what the entries make that stand in front of
    /// the first one whose moment is later. Moments that are asked for in one call go on from those of the call before.
    ///
    /// # Errors
    ///
    /// `Unordered` where the moments don't ascend; `Refused` with the first entry that isn't answered with success,
    /// `NoMemory`. Then the replay must not be used.
    pub fn samples(
        &mut self,
        alloc: Global,
        entries: &[JournalEntry<'_>],
        moments: &[Moment],
    ) -> Result<Vec<RuleSample>, SampleFault>
        ensures { IfOk result (λ found. found.items ≡ samples_by (standing_of self.old.standing) (map entry_of entries.now) moments.now) }
    {
        if !ascends(moments) {
            return Err(SampleFault::Unordered);
        }
        let mut found = Vec::new(alloc);
        let mut done = 0;
        for at in moments {
            let count = self.advance(alloc, done, &entries[done..], *at)?;
            done += count;
            self.standing.push_samples(alloc, &mut found, *at)?;
        }
        Ok(found)
    }

    /// The reply to a call of the operator, as this request makes it at its moment: over what the entries make that stand
    /// in front of the first one whose moment is later. It may be the refusal for being out of memory.
    ///
    /// # Errors
    ///
    /// `Refused` with the first entry that isn't answered with success. Then the replay must not be used.
    #[tactic(auto, using(crate::proofs::Replies::replied))]
    pub fn reply(
        &mut self,
        alloc: Global,
        entries: &[JournalEntry<'_>],
        call: &OperatorCall,
        request: &Request<'_>,
    ) -> Result<Reply, SampleFault>
        ensures { IfOk result (IsReplyAt (standing_of self.old.standing) (map entry_of entries.now) call.now (request_of request.now)) }
    {
        let _count = self.advance(alloc, 0, entries, request.at)?;
        Ok(self.standing.operator_call(alloc, call, request))
    }

    /// What was published by the last moment.
    pub fn catalogue(&self) -> &Catalogue
        ensures { publications_of result.now ≡ (standing_of self.now.standing).publications }
    {
        self.standing.catalogue()
    }
}

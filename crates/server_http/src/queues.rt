//! A queue for each client: its short answers run concurrently, a long one alone.
ghost use Rattle.std.specs.Prelude.{◌≡◌, None, IfSome, true, false};
ghost use Rattle.server_admission.specs.declared.cost.Cost.TheVariants.{Free, Shared, Exclusive};
ghost use Rattle.server_admission.specs.declared.limits.TheConstants.{MOST_SHORT};
ghost use Rattle.mds_request.specs.declared.config.Actor.TheVariants.{Nobody};
ghost use Rattle.server_http.specs.Turn.{IsWaiting, is_for_line, permits_of};

use crate::turn::Turn;
use mds_request::{Actor, Config};
use server_admission::{Cost, MOST_SHORT, index_of};
use std::alloc::{AllocError, Global};
use std::sync::Arc;
use tokio::sync::Semaphore;

/// The queue of one client.
#[derive(Drop)]
struct ClientQueue {
    /// One permit. A long answer holds it while it waits for the permits below and while it has
    /// them, so that no second long answer waits for them ahead of a short one.
    line: Arc<Semaphore>,
    /// As many permits as short answers run at once. A short answer takes one, a long one takes
    /// all.
    permits: Arc<Semaphore>,
}

/// A queue for each client, at the client's index.
#[derive(Drop)]
pub struct Queues {
    queues: Vec<ClientQueue>,
}

impl ClientQueue {
    /// An empty queue.
    ///
    /// # Errors
    ///
    /// Out of memory.
    fn new(alloc: Global) -> Result<ClientQueue, AllocError> {
        let line = Semaphore::new(alloc, 1)?;
        let permits = Semaphore::new(alloc, MOST_SHORT as usize)?;
        Ok(ClientQueue {
            line: Arc::new(alloc, line)?,
            permits: Arc::new(alloc, permits)?,
        })
    }

    /// The turn of a short answer; none, where there are too many references.
    fn shared_turn(&self) -> Option<Turn>
        ensures waits { IfSome result IsWaiting }
        ensures permits { IfSome result (λ turn. permits_of turn ≡ 1) }
        ensures line { IfSome result (λ turn. is_for_line turn.line ≡ false) }
    {
        let permits = Arc::try_clone(&self.permits).ok()?;
        Some(Turn::for_one_permit(permits))
    }

    /// The turn of a long answer; none, where there are too many references.
    fn exclusive_turn(&self) -> Option<Turn>
        ensures waits { IfSome result IsWaiting }
        ensures permits { IfSome result (λ turn. permits_of turn ≡ MOST_SHORT) }
        ensures line { IfSome result (λ turn. is_for_line turn.line ≡ true) }
    {
        let line = Arc::try_clone(&self.line).ok()?;
        let permits = Arc::try_clone(&self.permits).ok()?;
        Some(Turn::for_all_permits(line, permits))
    }
}

impl Queues {
    /// The queues of a configuration, all empty.
    ///
    /// # Errors
    ///
    /// Out of memory.
    pub fn new(alloc: Global, config: &Config) -> Result<Queues, AllocError> {
        let clients = config.operators().len() + 2;
        let mut queues = Vec::with_capacity(alloc, clients)?;
        for _ in 0..clients {
            queues.push(ClientQueue::new(alloc)?)?;
        }
        Ok(Queues { queues })
    }

    /// How many clients there are: anonymous, the author and the operators.
    pub fn clients(&self) -> usize {
        self.queues.len()
    }

    /// The turn of an answer that takes so much of its client's queue; none for what takes nothing
    /// of it, for an anonymous client, who is refused at once, and where there is no queue or there
    /// are too many references to it.
    pub fn turn(&self, actor: Actor, cost: Cost) -> Option<Turn>
        ensures waits { IfSome result IsWaiting }
        ensures free { cost ≡ Free → result ≡ None }
        ensures nobody { actor ≡ Nobody → result ≡ None }
        // A short answer takes one permit.
        ensures shared { cost ≡ Shared → IfSome result
            (λ turn. (permits_of turn ≡ 1) × (is_for_line turn.line ≡ false)) }
        // A long answer takes all permits, and waits for them once no other long answer to its
        // client does.
        ensures exclusive { cost ≡ Exclusive → IfSome result
            (λ turn. (permits_of turn ≡ MOST_SHORT) × (is_for_line turn.line ≡ true)) }
    {
        if actor == Actor::Nobody {
            return None;
        }
        let queue = self.queues.get(index_of(actor))?;
        match cost {
            Cost::Free => None,
            Cost::Shared => queue.shared_turn(),
            Cost::Exclusive => queue.exclusive_turn(),
        }
    }
}

//! The time of a standby.

use crate::claiming::claim;
use crate::clock::now_millis;
use crate::fault::StandbyFault;
use crate::step::{StandbyStep, is_given_up, next_step};
use journal_cluster::{ClusterEngine, ClusterFault};
use journal_gateway::{Dial, GatewayFault};
use journal_register::Look;
use journal_remote::{Engine, Tenure, Watch};
use std::sync::Wait;
use std::sync::atomic::{AtomicBool, Ordering};
use std::thread;
use std::time::{Clock, Duration};

/// How many milliseconds lie between two looks of a standby.
const LOOK_MILLIS: u64 = 200;

/// What a standby needs of the machine: the clock, and leave to wait.
pub trait StandbyHost: Clock + Wait {}

impl<R: Clock + Wait> StandbyHost for R {}

/// How a standby goes about.
#[derive(Clone, Copy)]
pub struct StandbyPlan<'a> {
    /// For how many milliseconds an owner is silent before it is overtaken.
    pub patience: u64,
    /// The random number by which this process is told apart.
    pub nonce: u64,
    /// Whether the process is to end.
    pub stopped: &'a AtomicBool,
}

/// What is known behind a look that was answered now.
///
/// # Errors
///
/// `WentBack`.
fn watch_after(before: Option<Watch>, look: Look, now: u64) -> Result<Watch, StandbyFault> {
    let Some(watch) = before else {
        return Ok(Watch { look, since: now });
    };
    watch.after(look, now).ok_or(StandbyFault::WentBack)
}

/// Why no look was answered.
fn fault_of<D: Dial>(engine: &ClusterEngine<'_, D>) -> ClusterFault {
    match engine.last_fault() {
        Some(fault) => fault,
        None => ClusterFault::Unanswered(GatewayFault::NoConnection),
    }
}

/// Watches a register until this process owns it. `None` where it is to end before.
///
/// # Errors
///
/// `Unanswered` where no look is answered from the start on, for as long as a standby waits; `WentBack`.
pub fn stand_by<R: StandbyHost, D: Dial>(
    rt: &R,
    engine: &mut ClusterEngine<'_, D>,
    plan: StandbyPlan<'_>,
) -> Result<Option<Tenure>, StandbyFault> {
    let begun = now_millis(rt);
    let mut seen: Option<Watch> = None;
    for _ in rt.forever() {
        let is_stopped = plan.stopped.load(Ordering::SeqCst);
        if let Some(look) = engine.look() {
            let watch = watch_after(seen, look, now_millis(rt))?;
            seen = Some(watch);
            match next_step(watch, now_millis(rt), plan.patience, is_stopped) {
                StandbyStep::Stop => return Ok(None),
                StandbyStep::Claim => {
                    if let Some(tenure) = claim(engine, watch, plan.nonce) {
                        return Ok(Some(tenure));
                    }
                }
                StandbyStep::Wait => {}
            }
        } else if is_stopped {
            return Ok(None);
        } else if seen.is_none() && is_given_up(begun, now_millis(rt), plan.patience) {
            return Err(StandbyFault::Unanswered(fault_of(engine)));
        }
        thread::sleep(rt, Duration::from_millis(LOOK_MILLIS));
    }
    unreachable!()
}

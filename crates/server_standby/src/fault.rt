//! Why a process comes to own no register.

use journal_cluster::ClusterFault;

/// Why a process comes to own no register.
#[derive(Clone, Copy, Debug, Drop, PartialEq, Eq)]
pub enum StandbyFault {
    /// No look was answered, for as long as a standby waits.
    Unanswered(ClusterFault),
    /// The register went back: it was restored, or written by hand.
    WentBack,
}

//! How many vehicles each operator has, in numbers that any thread may change.
ghost use Rattle.std.specs.Prelude.{◌≡◌, IfOk, string_bytes};
ghost use Rattle.server_control.specs.Lines.{operator_label};

use std::alloc::{AllocError, Global};
use std::sync::Arc;
use std::sync::atomic::{AtomicU64, Ordering};

/// How many vehicles an operator has.
#[derive(Drop)]
pub struct Fleet {
    /// The operator's identifier, as the label of its lines.
    label: String,
    vehicles: Arc<AtomicU64>,
}

impl Fleet {
    /// The fleet of the operator with this identifier, a UUID as it is spelled: 0 vehicles, until
    /// another number is set.
    ///
    /// # Errors
    ///
    /// Out of memory.
    pub fn new(alloc: Global, operator: &str) -> Result<Fleet, AllocError>
        ensures { IfOk result (λ fleet. string_bytes fleet.label ≡ operator_label operator.now) }
    {
        Ok(Fleet {
            label: label_for(alloc, operator)?,
            vehicles: Arc::new(alloc, AtomicU64::new(0))?,
        })
    }

    /// A reference to its number, for the code that counts its vehicles.
    ///
    /// # Errors
    ///
    /// There are too many references.
    pub fn vehicles(&self) -> Result<Arc<AtomicU64>, AllocError> {
        Arc::try_clone(&self.vehicles)
    }

    /// The operator's identifier, as the label of its lines.
    pub(crate) fn label(&self) -> &str
        ensures { result.now ≡ string_bytes self.now.label }
    {
        self.label.as_str()
    }

    /// Its present number.
    pub(crate) fn count(&self) -> u64 {
        self.vehicles.load(Ordering::SeqCst)
    }
}

/// The label of the operator with this identifier.
fn label_for(alloc: Global, operator: &str) -> Result<String, AllocError>
    ensures { IfOk result (λ label. string_bytes label ≡ operator_label operator.now) }
{
    format!(in alloc; "{{operator=\"{operator}\"}}")
}

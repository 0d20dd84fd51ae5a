//! The limit of a configuration that is too low for the vehicles that an operator has held.
ghost use Rattle.std.specs.Prelude.{◌≡◌, IfOk, decimal, map, option_map, string_bytes};
ghost use Rattle.mds_request.specs.Configuration.{configuration, operator};
ghost use Rattle.cli_config.specs.Limits.{bounds_in, held_wording, limit_wording, low_from, low_limit, low_wording};

use crate::paths::operator_text;
use mds_request::{Config, Operator};
use mds_text::Id;
use std::alloc::{AllocError, Global};

/// An operator's identifier and limit.
#[derive(Clone, Copy)]
pub(crate) struct Bound {
    pub(crate) id: Id,
    pub(crate) limit: usize,
}

/// An operator's place in the configuration and its limit.
#[derive(Clone, Copy, Debug, PartialEq, Eq)]
pub(crate) struct Low {
    pub(crate) place: usize,
    pub(crate) limit: usize,
}

/// The limits of a configuration, which outlive it.
#[derive(Drop)]
pub struct Limits {
    pub(crate) bounds: Vec<Bound>,
}

/// Each operator's identifier and limit.
fn bounds_of(alloc: Global, operators: &[Operator]) -> Result<Vec<Bound>, AllocError>
    ensures { IfOk result (λ bounds. bounds.items ≡ bounds_in (map operator operators.now)) }
{
    let mut bounds = Vec::with_capacity(alloc, operators.len())?;
    for operator in operators {
        let id = operator.id;
        let limit = operator.limit;
        bounds.push(Bound { id, limit })?;
    }
    Ok(bounds)
}

/// The place and the limit of the operator with an identifier.
fn low_of(bounds: &[Bound], id: Id) -> Option<Low>
    ensures { result ≡ low_from 0 id bounds.now }
{
    for (place, bound) in bounds.iter().enumerate() {
        if bound.id == id {
            let limit = bound.limit;
            return Some(Low { place, limit });
        }
    }
    None
}

fn decimal_text(alloc: Global, number: usize) -> Result<String, AllocError>
    ensures { IfOk result (λ text. string_bytes text ≡ decimal number) }
{
    format!(in alloc; "{number}")
}

/// An operator's limit, by its path.
fn limit_text(alloc: Global, low: Low) -> Result<String, AllocError>
    ensures { IfOk result (λ text. string_bytes text ≡ limit_wording low) }
{
    let limit = decimal_text(alloc, low.limit)?;
    let mut text = operator_text(alloc, low.place)?;
    text.push_str(".limit: ")?;
    text.push_str(limit.as_str())?;
    Ok(text)
}

/// The end of the message: the operator with this identifier has held more.
fn held_text(alloc: Global, id: &str) -> Result<String, AllocError>
    ensures { IfOk result (λ text. string_bytes text ≡ held_wording id.now) }
{
    let mut text = String::from_str(alloc, " is too low: operator ")?;
    text.push_str(id)?;
    text.push_str(" has held more vehicles")?;
    Ok(text)
}

fn low_text(alloc: Global, id: &str, low: Low) -> Result<String, AllocError>
    ensures { IfOk result (λ text. string_bytes text ≡ low_wording id.now low) }
{
    let held = held_text(alloc, id)?;
    let mut text = limit_text(alloc, low)?;
    text.push_str(held.as_str())?;
    Ok(text)
}

impl Limits {
    ghost use Rattle.cli_config.specs.Limits.{bounds};

    /// The limits of a configuration.
    ///
    /// # Errors
    ///
    /// Out of memory.
    pub fn of(alloc: Global, config: &Config) -> Result<Limits, AllocError>
        ensures { IfOk result (λ limits. bounds limits ≡ bounds_in (configuration config.now).operators) }
    {
        let bounds = bounds_of(alloc, config.operators())?;
        Ok(Limits { bounds })
    }

    /// The message where an operator has held more vehicles than its limit allows: `operators[1].limit: 20 is too low:
    /// operator 6f3c2a10-8d55-4b0e-9a51-0c7f4f1f2a01 has held more vehicles`. `None` where the configuration has no
    /// such operator.
    ///
    /// # Errors
    ///
    /// Out of memory.
    pub fn too_low(&self, alloc: Global, id: Id) -> Result<Option<String>, AllocError>
        ensures { IfOk result (λ told. option_map string_bytes told ≡ low_limit (bounds self.now) id) }
    {
        match low_of(self.bounds.as_slice(), id) {
            Some(low) => {
                let id = id.print(alloc)?;
                Ok(Some(low_text(alloc, id.as_str(), low)?))
            }
            None => Ok(None),
        }
    }
}

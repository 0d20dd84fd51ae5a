//! The values of a register's two keys, as they are put.
ghost use Rattle.std.specs.Prelude.{◌≡◌, ◌++◌, IfOk, OnOk};
ghost use Rattle.journal_etcd.specs.Values.{
  end_text,
  generation_text,
  extent_text,
  switch_text,
  owner_value,
  head_value,
};

use crate::numbers::push_number;
use journal_file::LogEnd;
use journal_register::{Extent, Generation, Head, Owner, Switch};
use std::alloc::{AllocError, Global};

/// The version of the values: their first number.
const VERSION: u64 = 1;

#[tactic(auto, unfolding(crate::specs::Values::end_text))]
fn push_end(text: &mut Vec<u8>, end: LogEnd) -> Result<(), AllocError>
    ensures { OnOk result (text.new.items ≡ text.old.items ++ end_text end) }
{
    push_number(text, end.position)?;
    push_number(text, end.sum)?;
    push_number(text, end.count)
}

#[tactic(auto, unfolding(crate::specs::Values::generation_text))]
fn push_generation(text: &mut Vec<u8>, generation: Generation) -> Result<(), AllocError>
    ensures { OnOk result (text.new.items ≡ text.old.items ++ generation_text generation) }
{
    push_number(text, generation.epoch)?;
    push_number(text, generation.attempt)
}

#[tactic(auto, unfolding(crate::specs::Values::extent_text))]
fn push_extent(text: &mut Vec<u8>, extent: Extent) -> Result<(), AllocError>
    ensures { OnOk result (text.new.items ≡ text.old.items ++ extent_text extent) }
{
    push_generation(text, extent.generation)?;
    push_number(text, extent.chunks)?;
    push_end(text, extent.end)
}

#[tactic(auto, unfolding(crate::specs::Values::switch_text))]
fn push_switch(text: &mut Vec<u8>, switch: Switch) -> Result<(), AllocError>
    ensures { OnOk result (text.new.items ≡ text.old.items ++ switch_text switch) }
{
    push_extent(text, switch.from)?;
    push_number(text, switch.chunks)?;
    push_end(text, switch.end)
}

/// The value of the owner's key.
#[tactic(auto, unfolding(crate::specs::Values::owner_value))]
pub fn owner_value(alloc: Global, owner: Owner) -> Result<Vec<u8>, AllocError>
    ensures { IfOk result (λ value. value.items ≡ owner_value owner) }
{
    let mut text = Vec::new(alloc);
    push_number(&mut text, VERSION)?;
    push_number(&mut text, owner.epoch)?;
    push_number(&mut text, owner.nonce)?;
    Ok(text)
}

/// The value of the head's key.
#[tactic(auto, unfolding(crate::specs::Values::head_value))]
pub fn head_value(alloc: Global, head: Head) -> Result<Vec<u8>, AllocError>
    ensures { IfOk result (λ value. value.items ≡ head_value head) }
{
    let mut text = Vec::new(alloc);
    push_number(&mut text, VERSION)?;
    push_extent(&mut text, head.extent)?;
    push_number(&mut text, head.beat)?;
    push_switch(&mut text, head.switch)?;
    Ok(text)
}

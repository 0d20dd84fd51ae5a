//! The keys of a register.
ghost use Rattle.std.specs.Prelude.{◌≡◌, ◌++◌, IfOk};
ghost use Rattle.journal_etcd.specs.Keys.{
  head_key,
  owner_key,
  behind_owner,
  chunks_prefix,
  chunk_key,
  chunks_begin,
  chunks_end,
};

use crate::numbers::push_hex;
use journal_register::Generation;
use std::alloc::{AllocError, Global};

/// Where a register's keys stand in etcd.
#[derive(Clone, Copy)]
pub struct Keys<'a> {
    /// What all of them begin with, as `ruffletuff/portland`.
    pub prefix: &'a str,
}

/// A prefix with a text behind it.
fn key_with(alloc: Global, keys: &Keys<'_>, last: &str) -> Result<Vec<u8>, AllocError>
    ensures { IfOk result (λ key. key.items ≡ keys.now.prefix.now ++ last.now) }
{
    let mut key = Vec::from_slice(alloc, keys.prefix.as_bytes())?;
    key.extend_from_slice(last.as_bytes())?;
    Ok(key)
}

/// The key of the head.
#[tactic(auto, unfolding(crate::specs::Keys::head_key))]
pub(crate) fn head_key(alloc: Global, keys: &Keys<'_>) -> Result<Vec<u8>, AllocError>
    ensures { IfOk result (λ key. key.items ≡ head_key keys.now.prefix.now) }
{
    key_with(alloc, keys, "/head")
}

/// The key of the owner.
#[tactic(auto, unfolding(crate::specs::Keys::owner_key))]
pub(crate) fn owner_key(alloc: Global, keys: &Keys<'_>) -> Result<Vec<u8>, AllocError>
    ensures { IfOk result (λ key. key.items ≡ owner_key keys.now.prefix.now) }
{
    key_with(alloc, keys, "/owner")
}

/// The first key behind those of head and owner.
#[tactic(auto, unfolding(crate::specs::Keys::behind_owner))]
pub(crate) fn behind_owner(alloc: Global, keys: &Keys<'_>) -> Result<Vec<u8>, AllocError>
    ensures { IfOk result (λ key. key.items ≡ behind_owner keys.now.prefix.now) }
{
    key_with(alloc, keys, "/p")
}

/// What the keys of a generation's chunks begin with.
#[tactic(auto, unfolding(crate::specs::Keys::chunks_prefix))]
fn chunks_prefix(
    alloc: Global,
    keys: &Keys<'_>,
    generation: Generation,
) -> Result<Vec<u8>, AllocError>
    ensures { IfOk result (λ key. key.items ≡ chunks_prefix keys.now.prefix.now generation) }
{
    let mut key = key_with(alloc, keys, "/c/")?;
    push_hex(&mut key, generation.epoch)?;
    push_hex(&mut key, generation.attempt)?;
    Ok(key)
}

/// The key of a chunk.
#[tactic(auto, unfolding(crate::specs::Keys::chunk_key))]
pub(crate) fn chunk_key(
    alloc: Global,
    keys: &Keys<'_>,
    generation: Generation,
    index: u64,
) -> Result<Vec<u8>, AllocError>
    ensures { IfOk result (λ key. key.items ≡ chunk_key keys.now.prefix.now generation index) }
{
    let mut key = chunks_prefix(alloc, keys, generation)?;
    key.extend_from_slice(b"/")?;
    push_hex(&mut key, index)?;
    Ok(key)
}

/// No key of the generation's chunks stands before it.
#[tactic(auto, unfolding(crate::specs::Keys::chunks_begin))]
pub(crate) fn chunks_begin(
    alloc: Global,
    keys: &Keys<'_>,
    generation: Generation,
) -> Result<Vec<u8>, AllocError>
    ensures { IfOk result (λ key. key.items ≡ chunks_begin keys.now.prefix.now generation) }
{
    let mut key = chunks_prefix(alloc, keys, generation)?;
    key.extend_from_slice(b"/")?;
    Ok(key)
}

/// All keys of the generation's chunks stand before it.
#[tactic(auto, unfolding(crate::specs::Keys::chunks_end))]
pub(crate) fn chunks_end(
    alloc: Global,
    keys: &Keys<'_>,
    generation: Generation,
) -> Result<Vec<u8>, AllocError>
    ensures { IfOk result (λ key. key.items ≡ chunks_end keys.now.prefix.now generation) }
{
    let mut key = chunks_prefix(alloc, keys, generation)?;
    key.extend_from_slice(b"0")?;
    Ok(key)
}

//! The bodies of requests to etcd's JSON gateway, and where they are posted to.
ghost use Rattle.std.specs.Prelude.{◌≡◌, ◌++◌, true, false, Err, string_bytes, length, IfOk, OnOk};
ghost use Rattle.journal_etcd.specs.Requests.{path_text, bytes_member, range_members, value_compare, missing_compare};
ghost use Rattle.journal_etcd.specs.Requests.{owner_compare, head_compare, compares_json, put_of, removal_of};
ghost use Rattle.journal_etcd.specs.Requests.{owner_put, head_put, chunk_put, chunks_removal, writes_json};
ghost use Rattle.journal_etcd.specs.Requests.{register_range, range_part, transaction_json, is_chunk};

use crate::fault::RequestFault;
use crate::keys::{Keys, behind_owner, chunk_key, chunks_begin, chunks_end, head_key, owner_key};
use crate::values::{head_value, owner_value};
use base64::engine::general_purpose::STANDARD;
use journal_register::{ChunkKey, Generation, Head, NO_HEAD, NOBODY, Owner, Transaction};
use std::alloc::{AllocError, Global};

/// The most bytes of a chunk: longer ones hold up what waits behind them, and etcd takes 1.5 MiB at most.
pub const MOST_CHUNK: usize = 262_144;

/// What of the gateway is asked, by a POST.
#[derive(Clone, Copy, Debug, PartialEq, Eq)]
pub enum GatewayPath {
    /// For keys in a range.
    Range,
    /// For a transaction.
    Transaction,
}

impl GatewayPath {
    /// The path's text.
    pub fn as_str(self) -> &'static str
        ensures { result.now ≡ path_text self }
    {
        match self {
            GatewayPath::Range => "/v3/kv/range",
            GatewayPath::Transaction => "/v3/kv/txn",
        }
    }
}

/// Appends a member of a JSON object whose value is bytes.
#[tactic(auto, unfolding(crate::specs::Requests::bytes_member, crate::specs::Requests::base64))]
fn push_member(text: &mut String, name: &str, bytes: &[u8]) -> Result<(), AllocError>
    ensures { OnOk result (string_bytes text.new ≡ string_bytes text.old ++ bytes_member name.now bytes.now) }
{
    text.push_str("\"")?;
    text.push_str(name)?;
    text.push_str("\":\"")?;
    STANDARD.encode_string(bytes, text)?;
    text.push_str("\"")
}

/// Appends the members that name all keys from one on, up to another.
#[tactic(auto, unfolding(crate::specs::Requests::range_members))]
pub(crate) fn push_range(text: &mut String, first: &[u8], behind: &[u8]) -> Result<(), AllocError>
    ensures { OnOk result (string_bytes text.new ≡ string_bytes text.old ++ range_members first.now behind.now) }
{
    push_member(text, "key", first)?;
    text.push_str(",")?;
    push_member(text, "range_end", behind)
}

/// Appends the compare of a key's value.
#[tactic(auto, unfolding(crate::specs::Requests::value_compare))]
fn push_value_compare(text: &mut String, key: &[u8], value: &[u8]) -> Result<(), AllocError>
    ensures { OnOk result (string_bytes text.new ≡ string_bytes text.old ++ value_compare key.now value.now) }
{
    text.push_str("{")?;
    push_member(text, "key", key)?;
    text.push_str(",\"target\":\"VALUE\",\"result\":\"EQUAL\",")?;
    push_member(text, "value", value)?;
    text.push_str("}")
}

/// Appends the compare that a key isn't there.
#[tactic(auto, unfolding(crate::specs::Requests::missing_compare))]
fn push_missing_compare(text: &mut String, key: &[u8]) -> Result<(), AllocError>
    ensures { OnOk result (string_bytes text.new ≡ string_bytes text.old ++ missing_compare key.now) }
{
    text.push_str("{")?;
    push_member(text, "key", key)?;
    text.push_str(",\"target\":\"CREATE\",\"result\":\"EQUAL\",\"create_revision\":\"0\"}")
}

#[tactic(auto, unfolding(crate::specs::Requests::owner_compare))]
fn push_owner_compare(
    alloc: Global,
    text: &mut String,
    keys: &Keys<'_>,
    owner: Owner,
) -> Result<(), AllocError>
    ensures { OnOk result (string_bytes text.new ≡ string_bytes text.old ++ owner_compare keys.now.prefix.now owner) }
{
    let key = owner_key(alloc, keys)?;
    if owner.is(NOBODY) {
        return push_missing_compare(text, &key);
    }
    let value = owner_value(alloc, owner)?;
    push_value_compare(text, &key, &value)
}

#[tactic(auto, unfolding(crate::specs::Requests::head_compare))]
fn push_head_compare(
    alloc: Global,
    text: &mut String,
    keys: &Keys<'_>,
    head: Head,
) -> Result<(), AllocError>
    ensures { OnOk result (string_bytes text.new ≡ string_bytes text.old ++ head_compare keys.now.prefix.now head) }
{
    let key = head_key(alloc, keys)?;
    if head.is(NO_HEAD) {
        return push_missing_compare(text, &key);
    }
    let value = head_value(alloc, head)?;
    push_value_compare(text, &key, &value)
}

/// Appends what a transaction compares.
#[tactic(auto, unfolding(crate::specs::Requests::compares_json))]
fn push_compares(
    alloc: Global,
    text: &mut String,
    keys: &Keys<'_>,
    owner: Owner,
    head: Option<Head>,
) -> Result<(), AllocError>
    ensures { OnOk result (string_bytes text.new
        ≡ string_bytes text.old ++ compares_json keys.now.prefix.now owner head) }
{
    push_owner_compare(alloc, text, keys, owner)?;
    match head {
        Some(head) => {
            text.push_str(",")?;
            push_head_compare(alloc, text, keys, head)
        }
        None => Ok(()),
    }
}

/// Appends the put of a value, and a comma.
#[tactic(auto, unfolding(crate::specs::Requests::put_of))]
fn push_put(text: &mut String, key: &[u8], value: &[u8]) -> Result<(), AllocError>
    ensures { OnOk result (string_bytes text.new ≡ string_bytes text.old ++ put_of key.now value.now) }
{
    text.push_str("{\"request_put\":{")?;
    push_member(text, "key", key)?;
    text.push_str(",")?;
    push_member(text, "value", value)?;
    text.push_str("}},")
}

/// Appends the removal of a range of keys, and a comma.
#[tactic(auto, unfolding(crate::specs::Requests::removal_of))]
fn push_removal(text: &mut String, first: &[u8], behind: &[u8]) -> Result<(), AllocError>
    ensures { OnOk result (string_bytes text.new ≡ string_bytes text.old ++ removal_of first.now behind.now) }
{
    text.push_str("{\"request_delete_range\":{")?;
    push_range(text, first, behind)?;
    text.push_str("}},")
}

#[tactic(auto, unfolding(crate::specs::Requests::owner_put))]
fn push_owner_put(
    alloc: Global,
    text: &mut String,
    keys: &Keys<'_>,
    owner: Option<Owner>,
) -> Result<(), AllocError>
    ensures { OnOk result (string_bytes text.new ≡ string_bytes text.old ++ owner_put keys.now.prefix.now owner) }
{
    match owner {
        Some(owner) => push_put(text, &owner_key(alloc, keys)?, &owner_value(alloc, owner)?),
        None => Ok(()),
    }
}

#[tactic(auto, unfolding(crate::specs::Requests::head_put))]
fn push_head_put(
    alloc: Global,
    text: &mut String,
    keys: &Keys<'_>,
    head: Option<Head>,
) -> Result<(), AllocError>
    ensures { OnOk result (string_bytes text.new ≡ string_bytes text.old ++ head_put keys.now.prefix.now head) }
{
    match head {
        Some(head) => push_put(text, &head_key(alloc, keys)?, &head_value(alloc, head)?),
        None => Ok(()),
    }
}

#[tactic(auto, unfolding(crate::specs::Requests::chunk_put))]
fn push_chunk_put(
    alloc: Global,
    text: &mut String,
    keys: &Keys<'_>,
    key: Option<ChunkKey>,
    bytes: &[u8],
) -> Result<(), AllocError>
    ensures { OnOk result (string_bytes text.new
        ≡ string_bytes text.old ++ chunk_put keys.now.prefix.now key bytes.now) }
{
    match key {
        Some(key) => push_put(
            text,
            &chunk_key(alloc, keys, key.generation, key.index)?,
            bytes,
        ),
        None => Ok(()),
    }
}

#[tactic(auto, unfolding(crate::specs::Requests::chunks_removal))]
fn push_chunks_removal(
    alloc: Global,
    text: &mut String,
    keys: &Keys<'_>,
    generation: Option<Generation>,
) -> Result<(), AllocError>
    ensures { OnOk result (string_bytes text.new
        ≡ string_bytes text.old ++ chunks_removal keys.now.prefix.now generation) }
{
    match generation {
        Some(generation) => {
            let first = chunks_begin(alloc, keys, generation)?;
            let behind = chunks_end(alloc, keys, generation)?;
            push_removal(text, &first, &behind)
        }
        None => Ok(()),
    }
}

/// Appends what a transaction puts and removes, each with a comma behind it.
#[tactic(auto, unfolding(crate::specs::Requests::writes_json))]
fn push_writes(
    alloc: Global,
    text: &mut String,
    keys: &Keys<'_>,
    transaction: &Transaction,
    bytes: &[u8],
) -> Result<(), AllocError>
    ensures { OnOk result (string_bytes text.new
        ≡ string_bytes text.old ++ writes_json keys.now.prefix.now transaction.now bytes.now) }
{
    push_owner_put(alloc, text, keys, transaction.new_owner)?;
    push_head_put(alloc, text, keys, transaction.new_head)?;
    push_chunk_put(alloc, text, keys, transaction.chunk, bytes)?;
    push_chunks_removal(alloc, text, keys, transaction.deleted)
}

/// Appends the range over both keys of a register.
#[tactic(auto, unfolding(crate::specs::Requests::register_range))]
fn push_register_range(alloc: Global, text: &mut String, keys: &Keys<'_>) -> Result<(), AllocError>
    ensures { OnOk result (string_bytes text.new ≡ string_bytes text.old ++ register_range keys.now.prefix.now) }
{
    let first = head_key(alloc, keys)?;
    let behind = behind_owner(alloc, keys)?;
    text.push_str("{")?;
    push_range(text, &first, &behind)?;
    text.push_str("}")
}

/// Appends the same as a part of a transaction.
#[tactic(auto, unfolding(crate::specs::Requests::range_part))]
fn push_range_part(alloc: Global, text: &mut String, keys: &Keys<'_>) -> Result<(), AllocError>
    ensures { OnOk result (string_bytes text.new ≡ string_bytes text.old ++ range_part keys.now.prefix.now) }
{
    text.push_str("{\"request_range\":")?;
    push_register_range(alloc, text, keys)?;
    text.push_str("}")
}

/// Whether so many bytes are a chunk's, where one is put; else there are none.
fn is_chunk(key: Option<ChunkKey>, count: usize) -> bool
    ensures { result ≡ is_chunk key count }
{
    match key {
        Some(_) => 0 < count && count <= MOST_CHUNK,
        None => count == 0,
    }
}

/// The text of a transaction.
#[tactic(auto, unfolding(crate::specs::Requests::transaction_json))]
fn transaction_text(
    alloc: Global,
    keys: &Keys<'_>,
    transaction: &Transaction,
    bytes: &[u8],
) -> Result<String, AllocError>
    ensures { IfOk result (λ text. string_bytes text ≡ transaction_json keys.now.prefix.now transaction.now bytes.now) }
{
    let mut text = String::from_str(alloc, "{\"compare\":[")?;
    push_compares(alloc, &mut text, keys, transaction.owner, transaction.head)?;
    text.push_str("],\"success\":[")?;
    push_writes(alloc, &mut text, keys, transaction, bytes)?;
    push_range_part(alloc, &mut text, keys)?;
    text.push_str("],\"failure\":[")?;
    push_range_part(alloc, &mut text, keys)?;
    text.push_str("]}")?;
    Ok(text)
}

/// The body of a transaction's request, with the bytes of the chunk that it puts. It is one text for one transaction:
/// the same is sent again where no answer decides.
///
/// # Errors
///
/// `BadChunk`, `NoMemory`.
pub fn transaction_request(
    alloc: Global,
    keys: &Keys<'_>,
    transaction: &Transaction,
    bytes: &[u8],
) -> Result<String, RequestFault>
    ensures value { IfOk result (λ text. string_bytes text
        ≡ transaction_json keys.now.prefix.now transaction.now bytes.now) }
    ensures chunk { IfOk result (λ text. is_chunk transaction.now.chunk (length bytes.now) ≡ true) }
    ensures refused { result ≡ Err RequestFault.BadChunk → is_chunk transaction.now.chunk (length bytes.now) ≡ false }
{
    if !is_chunk(transaction.chunk, bytes.len()) {
        return Err(RequestFault::BadChunk);
    }
    match transaction_text(alloc, keys, transaction, bytes) {
        Ok(text) => Ok(text),
        Err(_) => Err(RequestFault::NoMemory),
    }
}

/// The body of a look's request: one range over both keys, which a majority of etcd's members answers for.
pub fn look_request(alloc: Global, keys: &Keys<'_>) -> Result<String, AllocError>
    ensures { IfOk result (λ text. string_bytes text ≡ register_range keys.now.prefix.now) }
{
    let mut text = String::new(alloc);
    push_register_range(alloc, &mut text, keys)?;
    Ok(text)
}

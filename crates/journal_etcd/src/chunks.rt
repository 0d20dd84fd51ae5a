//! Chunks of a journal: the request for those from one on, and what it is answered.
ghost use Rattle.std.specs.Prelude.{◌≡◌, ◌+◌, ◌^◌, ◌<◌, [], string_bytes, IfOk};
ghost use Rattle.json.specs.Value.{value_view};
ghost use Rattle.journal_etcd.specs.Chunks.{chunks_json, chunk_in, places_from, chunks_from, chunks_of};
ghost use Rattle.journal_etcd.specs.Reading.{Gives};

use crate::answers::{json_of, value_in};
use crate::fault::AnswerError;
use crate::keys::{Keys, chunk_key, chunks_end};
use crate::members::member;
use crate::requests::push_range;
use journal_register::ChunkKey;
use json::{Scratch, Value};
use std::alloc::{AllocError, Global};

/// Chunks that stand one behind another.
#[derive(Debug, Drop)]
pub struct ChunkRun {
    /// How many these are.
    pub count: u64,
    /// Their bytes, one chunk's behind another's.
    pub bytes: Vec<u8>,
}

/// The body of the request for the chunks of a generation from this one on, so many at most, which a majority of etcd's
/// members answers for.
#[tactic(auto, unfolding(crate::specs::Chunks::chunks_json))]
pub fn chunks_request(
    alloc: Global,
    keys: &Keys<'_>,
    from: ChunkKey,
    most: u64,
) -> Result<String, AllocError>
    ensures { IfOk result (λ text. string_bytes text ≡ chunks_json keys.now.prefix.now from most) }
{
    let first = chunk_key(alloc, keys, from.generation, from.index)?;
    let behind = chunks_end(alloc, keys, from.generation)?;
    let limit = most.to_string(alloc)?;
    let mut text = String::from_str(alloc, "{")?;
    push_range(&mut text, &first, &behind)?;
    text.push_str(",\"limit\":\"")?;
    text.push_str(limit.as_str())?;
    text.push_str("\"}")?;
    Ok(text)
}

/// The bytes of the chunk that a pair is.
#[tactic(auto, unfolding(crate::specs::Chunks::chunk_in))]
fn chunk_in(
    alloc: Global,
    keys: &Keys<'_>,
    at: ChunkKey,
    pair: &Value<'_>,
) -> Result<Vec<u8>, AnswerError>
    ensures { Gives (λ bytes. bytes.items) result
        (chunk_in keys.now.prefix.now at.generation at.index (value_view pair.now)) }
{
    let key = chunk_key(alloc, keys, at.generation, at.index)?;
    value_in(alloc, pair, &key)
}

/// How many indices there are from a chunk's on, so many at most.
fn places_from(from: ChunkKey, most: u64) -> u64
    ensures value { result ≡ places_from from most }
    ensures room { from.index + result < 2 ^ 64 }
{
    most.min(u64::MAX - from.index)
}

/// The chunks from this one on that pairs are, so many at most.
#[tactic(auto, using(crate::proofs::Chunking::chunks_on, crate::proofs::Chunking::chunks_bad, crate::proofs::Chunking::chunks_end, crate::proofs::Chunking::chunks_done))]
fn run_in(
    alloc: Global,
    keys: &Keys<'_>,
    from: ChunkKey,
    most: u64,
    pairs: &Value<'_>,
) -> Result<ChunkRun, AnswerError>
    requires { from.index + most < 2 ^ 64 }
    ensures { Gives (λ run. (run.count, run.bytes.items)) result
        (chunks_from keys.now.prefix.now from (value_view pairs.now) most 0 []) }
{
    let mut bytes = Vec::new(alloc);
    let mut count: u64 = 0;
    'chunks: while count < most {
        let Some(pair) = pairs.at(count as usize) else {
            return Ok(ChunkRun { count, bytes });
        };
        let at = ChunkKey {
            generation: from.generation,
            index: from.index + count,
        };
        let chunk = chunk_in(alloc, keys, at, pair)?;
        bytes.extend_from_slice(&chunk)?;
        count += 1;
    }
    Ok(ChunkRun { count, bytes })
}

/// Reads the body of the answer to a request for the chunks from this one on, so many at most: how many there are, and
/// their bytes.
///
/// # Errors
///
/// `NoMemory`, or the body's first fault: none of these chunks stands, or one isn't the next.
#[tactic(auto, unfolding(crate::specs::Chunks::chunks_of))]
pub fn read_chunks(
    alloc: Global,
    keys: &Keys<'_>,
    from: ChunkKey,
    most: u64,
    body: &[u8],
) -> Result<ChunkRun, AnswerError>
    ensures { Gives (λ run. (run.count, run.bytes.items)) result
        (chunks_of keys.now.prefix.now from most body.now) }
{
    let mut scratch = Scratch::new(alloc);
    let answer = json_of(alloc, body, &mut scratch)?;
    let pairs = member(&answer, "kvs")?;
    run_in(alloc, keys, from, places_from(from, most), pairs)
}

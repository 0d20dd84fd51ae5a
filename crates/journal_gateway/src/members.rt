//! The addresses of a cluster's members, as they are given.
ghost use Rattle.std.specs.Prelude.{◌≡◌, ◌==◌, ◌<◌, true, length, All, IfOk, IfSome, string_bytes};
ghost use Rattle.std.specs.List.{list_all, list_any};
ghost use Rattle.journal_gateway.specs.Members.{is_host_byte, is_member};

use std::alloc::{AllocError, Global};

/// What the address of a cluster begins with.
const SCHEME: &str = "etcd:";

/// The most members of a cluster.
const MOST_MEMBERS: usize = 16;

/// Whether a byte may stand in the address of a member: printable ASCII, and neither space nor comma.
fn is_host_byte(byte: u8) -> bool
    ensures { result ≡ is_host_byte byte }
{
    33 <= byte && byte <= 126 && byte != b','
}

/// Whether all bytes may stand in the address of a member.
fn are_host_bytes(word: &[u8]) -> bool
    ensures { result ≡ list_all is_host_byte word.now }
{
    word.iter().all(|byte| is_host_byte(*byte))
}

/// Whether a colon is among the bytes.
fn has_colon(word: &[u8]) -> bool
    ensures { result ≡ list_any (λ byte. byte == 58) word.now }
{
    word.iter().any(|byte| *byte == b':')
}

/// Whether a word may be the address of a member: a host, a colon and a port.
pub fn is_member(word: &str) -> bool
    ensures { result ≡ is_member word.now }
{
    are_host_bytes(word.as_bytes()) && has_colon(word.as_bytes())
}

/// The addresses of the members in the address of a cluster: `etcd:HOST:PORT,HOST:PORT`. `None` where it isn't one, or
/// has more than 16 members.
///
/// # Errors
///
/// Memory ran out.
pub fn members_in(alloc: Global, word: &str) -> Result<Option<Vec<String>>, AllocError>
    ensures members { IfOk result (λ found. IfSome found (λ members. All (λ member. is_member (string_bytes member) ≡ true) members.items)) }
    ensures some { IfOk result (λ found. IfSome found (λ members. 0 < length members.items)) }
{
    let Some(list) = word.strip_prefix(SCHEME) else {
        return Ok(None);
    };
    let mut members = Vec::new(alloc);
    'members: for member in list.split(',') {
        if !is_member(member) || members.len() >= MOST_MEMBERS {
            return Ok(None);
        }
        members.push(String::from_str(alloc, member)?)?;
    }
    if members.is_empty() {
        return Ok(None);
    }
    Ok(Some(members))
}

//! The fast reader: from the tokens of a text to a tree that borrows from it. A text with anything
//! unusual about it is left to the general reader of `mds_text`.
ghost use Rattle.std.specs.Prelude.{◌≡◌, ℕ, ◌+◌, ◌<◌, ◌≤◌, false, length, IfOk, IfSome, IsNone, OnOk, Ok, Some, None, map};
ghost use Rattle.json.specs.Json.{value, items, members, parse_map, after_end_array};
ghost use Rattle.json.specs.Print.{IsNumber};
ghost use Rattle.serde_json.specs.Read.{converted};
ghost use Rattle.mds_text.specs.Quoting.{is_quoted, quoted_count};
ghost use Rattle.mds_text.specs.Reading.{read_text};
ghost use Rattle.mds_text.specs.Tree.{int, items_of, list, members_of, no_members};
ghost use Rattle.mds_json.specs.Gathered.{gathered, items_before, scalar_view};
ghost use Rattle.mds_json.specs.Node.{node_view, node_member_view};
ghost use Rattle.mds_json.specs.Direct.{tree_number, tree_value, tree_items, tree_members, quoted_in, quoted_one};
ghost use Rattle.json.specs.Token as token;

use crate::direct_fault::DirectFault;
use crate::entries::nodes_of;
use crate::first_entries::{FirstEntries, Scalar};
use crate::lookahead::{byte_or_space, next_number, next_string, opens_list};
use crate::members::put_member;
use crate::node::{Node, NodeMember};
use crate::point::has_point;
use crate::whole::whole_number;
use json::{Reader, Scratch, Token};
use mds_text::is_quoted;
use std::alloc::Global;

/// The most levels of nesting, as many as `serde_json` reads.
const MAX_DEPTH: usize = 127;

/// The tree of a text, and how many of its numbers aren't plain. `Unusual` says nothing about the
/// text: it may be valid or not.
pub(crate) fn read_direct<'a>(
    alloc: Global,
    scratch: &'a mut Scratch<Global>,
    bytes: &'a [u8],
) -> Result<(Node<'a>, u64), DirectFault>
    ensures tree { IfOk result (λ r. read_text bytes.now ≡ Ok (node_view r.0)) }
    ensures quoted { IfOk result (λ r. r.1 ≡ quoted_count bytes.now) }
{
    let Ok(text) = simdutf8::basic::from_utf8(bytes) else {
        return Err(DirectFault::Unusual);
    };
    let mut reader = Reader::new(text, scratch)?;
    let mut quoted = 0;
    let tree = read(alloc, bytes, &mut reader, &mut quoted, MAX_DEPTH)?;
    if reader.next().is_some() {
        return Err(DirectFault::Unusual);
    }
    Ok((tree, quoted))
}

#[cycle(read)]
#[inline(always)]
fn read<'a>(
    alloc: Global,
    text: &[u8],
    reader: &mut Reader<'a>,
    quoted: &mut u64,
    depth: usize,
) -> Result<Node<'a>, DirectFault>
    ensures ok { IfOk result (λ n. converted tree_value (value depth reader.old) ≡ Some (node_view n, reader.new)) }
    ensures counted { OnOk result (quoted.new + quoted_in reader.new ≡ quoted.old + quoted_in reader.old) }
    ensures shorter { OnOk result (length reader.new < length reader.old) }
{
    let Some(token) = reader.next() else {
        return Err(DirectFault::Unusual);
    };
    match token {
        Token::String(string) => Ok(Node::Text(string)),
        Token::Number(number) => Ok(read_number(number, quoted)?.node()),
        Token::Bool(b) => Ok(Node::Bool(b)),
        Token::Null => Ok(Node::Null),
        Token::BeginArray => {
            if depth == 0 {
                return Err(DirectFault::Unusual);
            }
            Ok(read_list(alloc, text, reader, quoted, depth - 1)?)
        }
        Token::BeginObject => {
            if depth == 0 {
                return Err(DirectFault::Unusual);
            }
            Ok(Node::Object(read_members(alloc, text, reader, quoted, depth - 1)?))
        }
        Token::EndArray | Token::EndObject | Token::Key(_) | Token::Bad => Err(
            DirectFault::Unusual,
        ),
    }
}

/// The list after its opening bracket. A list of two strings allocates nothing.
#[cycle(read)]
#[inline(always)]
fn read_list<'a>(
    alloc: Global,
    text: &[u8],
    reader: &mut Reader<'a>,
    quoted: &mut u64,
    depth: usize,
) -> Result<Node<'a>, DirectFault>
    ensures ok { IfOk result (λ n. parse_map list (converted tree_items (items (value depth) (length reader.old) reader.old)) ≡ Some (node_view n, reader.new)) }
    ensures counted { OnOk result (quoted.new + quoted_in reader.new ≡ quoted.old + quoted_in reader.old) }
    ensures shorter { OnOk result (length reader.new < length reader.old) }
{
    let front = read_prefix(text, reader, quoted)?;
    if reader.take_end_array() {
        return Ok(front.list(alloc)?);
    }
    if let FirstEntries::Empty = front {
        return Ok(read_pairs(alloc, text, reader, quoted, depth)?);
    }
    let found = front.entries(alloc)?;
    Ok(Node::List(read_items(alloc, text, reader, quoted, depth, found)?))
}

/// A list that begins with neither a number nor a string: `Pairs` where all of its entries are
/// pairs.
#[cycle(read)]
#[inline(never)]
fn read_pairs<'a>(
    alloc: Global,
    text: &[u8],
    reader: &mut Reader<'a>,
    quoted: &mut u64,
    depth: usize,
) -> Result<Node<'a>, DirectFault>
    ensures ok { IfOk result (λ n. parse_map list (converted tree_items (items (value depth) (length reader.old) reader.old)) ≡ Some (node_view n, reader.new)) }
    ensures counted { OnOk result (quoted.new + quoted_in reader.new ≡ quoted.old + quoted_in reader.old) }
    ensures shorter { OnOk result (length reader.new < length reader.old) }
{
    let mut pairs = Vec::new(alloc);
    'pairs: while !reader.take_end_array() {
        match read_entry(alloc, text, reader, quoted, depth)? {
            Node::Pair(first, second) => pairs.push((first, second))?,
            other => {
                let mut found = nodes_of(alloc, &pairs)?;
                found.push(other)?;
                return Ok(Node::List(read_items(alloc, text, reader, quoted, depth, found)?));
            }
        }
    }
    Ok(Node::Pairs(pairs))
}

/// An entry of such a list.
#[cycle(read)]
#[inline(always)]
fn read_entry<'a>(
    alloc: Global,
    text: &[u8],
    reader: &mut Reader<'a>,
    quoted: &mut u64,
    depth: usize,
) -> Result<Node<'a>, DirectFault>
    ensures ok { IfOk result (λ n. converted tree_value (value depth reader.old) ≡ Some (node_view n, reader.new)) }
    ensures counted { OnOk result (quoted.new + quoted_in reader.new ≡ quoted.old + quoted_in reader.old) }
    ensures shorter { OnOk result (length reader.new < length reader.old) }
{
    if depth == 0 || byte_or_space(text, reader.offset()) != b'[' {
        return Ok(read(alloc, text, reader, quoted, depth)?);
    }
    if !opens_list(reader) {
        return Err(DirectFault::Unusual);
    }
    Ok(read_list(alloc, text, reader, quoted, depth - 1)?)
}

/// The numbers and strings that a list begins with, two at most.
#[inline(always)]
fn read_prefix<'a>(
    text: &[u8],
    reader: &mut Reader<'a>,
    quoted: &mut u64,
) -> Result<FirstEntries<'a>, DirectFault>
    ensures ok { IfOk result (λ g. (depth : ℕ) → converted tree_items (items (value depth) (length reader.old) reader.old)
        ≡ parse_map (items_before (gathered g)) (converted tree_items (items (value depth) (length reader.new) reader.new))) }
    ensures counted { OnOk result (quoted.new + quoted_in reader.new ≡ quoted.old + quoted_in reader.old) }
    ensures shorter { OnOk result (length reader.new ≤ length reader.old) }
{
    let Some(first) = next_scalar(text, reader, quoted)? else {
        return Ok(FirstEntries::Empty);
    };
    let Some(second) = next_scalar(text, reader, quoted)? else {
        return Ok(FirstEntries::One(first));
    };
    Ok(FirstEntries::Two(first, second))
}

/// The next number or string, where the text's next byte begins one.
#[inline(always)]
fn next_scalar<'a>(
    text: &[u8],
    reader: &mut Reader<'a>,
    quoted: &mut u64,
) -> Result<Option<Scalar<'a>>, DirectFault>
    ensures none { IfOk result (λ found. IsNone found → (reader.new ≡ reader.old) × (quoted.new ≡ quoted.old)) }
    ensures going { IfOk result (λ found. IfSome found (λ a. after_end_array reader.old ≡ None)) }
    ensures ok { IfOk result (λ found. IfSome found (λ a. (depth : ℕ) → converted tree_value (value depth reader.old) ≡ Some (scalar_view a, reader.new))) }
    ensures counted { OnOk result (quoted.new + quoted_in reader.new ≡ quoted.old + quoted_in reader.old) }
    ensures one { IfOk result (λ found. IfSome found (λ a. length reader.old ≡ length reader.new + 1)) }
{
    match byte_or_space(text, reader.offset()) {
        b'-' | b'0'..=b'9' => {
            let number = next_number(reader);
            if number.is_empty() {
                return Err(DirectFault::Unusual);
            }
            Ok(Some(read_number(number, quoted)?))
        }
        b'"' => match next_string(reader) {
            Some(string) => Ok(Some(Scalar::Text(string))),
            None => Err(DirectFault::Unusual),
        },
        _ => Ok(None),
    }
}

/// The entries of a list after those that were read already.
#[cycle(read)]
#[inline(never)]
fn read_items<'a>(
    alloc: Global,
    text: &[u8],
    reader: &mut Reader<'a>,
    quoted: &mut u64,
    depth: usize,
    mut found: Vec<Node<'a>>,
) -> Result<Vec<Node<'a>>, DirectFault>
    ensures ok { IfOk result (λ v. (n : ℕ) → length reader.old ≤ n → parse_map (items_before (map node_view found.entry.items)) (converted tree_items (items (value depth) n reader.old)) ≡ Some (items_of (map node_view v.items), reader.new)) }
    ensures counted { OnOk result (quoted.new + quoted_in reader.new ≡ quoted.old + quoted_in reader.old) }
    ensures shorter { OnOk result (length reader.new < length reader.old) }
{
    'items: while !reader.take_end_array() {
        let item = read(alloc, text, reader, quoted, depth)?;
        found.push(item)?;
    }
    Ok(found)
}

#[cycle(read)]
#[inline(never)]
fn read_members<'a>(
    alloc: Global,
    text: &[u8],
    reader: &mut Reader<'a>,
    quoted: &mut u64,
    depth: usize,
) -> Result<Vec<NodeMember<'a>>, DirectFault>
    ensures ok { IfOk result (λ v. converted (λ ms. tree_members ms no_members) (members (value depth) (length reader.old) reader.old)
        ≡ Some (members_of (map node_member_view v.items), reader.new)) }
    ensures counted { OnOk result (quoted.new + quoted_in reader.new ≡ quoted.old + quoted_in reader.old) }
    ensures shorter { OnOk result (length reader.new < length reader.old) }
{
    let mut found = Vec::new(alloc);
    'members: while let Some(name) = reader.next_key()? {
        let member = read(alloc, text, reader, quoted, depth)?;
        put_member(&mut found, name, member)?;
    }
    Ok(found)
}

/// A number; one that isn't plain becomes a string, and is counted.
#[inline(always)]
fn read_number<'a>(text: &'a str, quoted: &mut u64) -> Result<Scalar<'a>, DirectFault>
    requires { IsNumber text.now }
    ensures value { IfOk result (λ a. tree_number text.now ≡ Some (scalar_view a)) }
    ensures counted { OnOk result (quoted.new ≡ quoted.old + quoted_one (token.number text.now)) }
{
    if has_point(text.as_bytes()) || is_quoted(text.as_bytes()) {
        *quoted = quoted.checked_add(1).ok_or(DirectFault::Unusual)?;
        return Ok(Scalar::Text(text));
    }
    Ok(Scalar::Int(plain_number(text)?))
}

/// A plain whole number.
fn plain_number(text: &str) -> Result<i64, DirectFault>
    requires { is_quoted text.now ≡ false }
    ensures { IfOk result (λ z. tree_number text.now ≡ Some (int z)) }
{
    whole_number(text.as_bytes()).ok_or(DirectFault::Unusual)
}

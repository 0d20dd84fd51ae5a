//! Prints a tree as JSON text.
ghost use Rattle.std.specs.Prelude.{◌≡◌, false, [], ◌∷◌, ◌++◌, ◌^◌, ◌<◌, ◌≤◌, IfOk, OnOk, map, string_bytes};
ghost use Rattle.std.specs.List.{All};
ghost use Rattle.std.specs.Fmt.{signed_decimal};
ghost use Rattle.mds_text.specs.Printed.{escaped, quoted, fraction, hex_digit, printed, printed_degrees, printed_items, printed_members};
ghost use Rattle.mds_text.specs.Tree.{items_of, members_of};
ghost use Rattle.mds_text.specs.View.{view, member_view};

use crate::tree::{Member, Tree};
use crate::units::Units7;
use std::alloc::{AllocError, Global};

/// Units of 10^-7 degree in a degree.
const DEGREE: u64 = 10_000_000;

/// Prints a tree compactly (RFC 8259), members in their order, degrees as `print_units` gives them.
pub fn print_tree(alloc: Global, tree: &Tree) -> Result<Vec<u8>, AllocError>
    ensures text { IfOk result (λ v. v.items ≡ printed (view tree.now)) }
    ensures one_line { IfOk result (λ v. All (λ b. 32 ≤ b) v.items) }
{
    let mut out = Vec::new(alloc);
    print_value(&mut out, tree)?;
    Ok(out)
}

#[cycle(print_value)]
fn print_value(out: &mut Vec<u8>, tree: &Tree) -> Result<(), AllocError>
    ensures { OnOk result (out.new.items ≡ out.old.items ++ printed (view tree.now)) }
{
    match tree {
        Tree::Null => out.extend_from_slice(b"null"),
        Tree::Bool(true) => out.extend_from_slice(b"true"),
        Tree::Bool(false) => out.extend_from_slice(b"false"),
        Tree::Int(int) => print_int(out, *int),
        Tree::Text(text) => print_text(out, text.as_str()),
        Tree::Degrees(units) => print_degrees(out, *units),
        Tree::List(items) => print_list(out, items),
        Tree::Object(members) => print_object(out, members),
    }
}

#[cycle(print_value)]
fn print_list(out: &mut Vec<u8>, items: &[Tree]) -> Result<(), AllocError>
    ensures { OnOk result (out.new.items ≡ out.old.items ++ 91 ∷ printed_items false (items_of (map view items.now)) ++ 93 ∷ []) }
{
    out.push(b'[')?;
    let mut later = false;
    for item in items {
        if later {
            out.push(b',')?;
        }
        print_value(out, item)?;
        later = true;
    }
    out.push(b']')?;
    Ok(())
}

#[cycle(print_value)]
fn print_object(out: &mut Vec<u8>, members: &[Member]) -> Result<(), AllocError>
    ensures { OnOk result (out.new.items ≡ out.old.items ++ 123 ∷ printed_members false (members_of (map member_view members.now)) ++ 125 ∷ []) }
{
    out.push(b'{')?;
    let mut later = false;
    for member in members {
        if later {
            out.push(b',')?;
        }
        print_text(out, member.name.as_str())?;
        out.push(b':')?;
        print_value(out, &member.value)?;
        later = true;
    }
    out.push(b'}')?;
    Ok(())
}

fn print_int(out: &mut Vec<u8>, int: i64) -> Result<(), AllocError>
    ensures { OnOk result (out.new.items ≡ out.old.items ++ signed_decimal int) }
{
    let digits = int.to_string(*out.allocator())?;
    out.extend_from_slice(digits.as_bytes())
}

/// A string in quotation marks, with escapes (RFC 8259, section 7).
fn print_text(out: &mut Vec<u8>, text: &str) -> Result<(), AllocError>
    ensures { OnOk result (out.new.items ≡ out.old.items ++ quoted text.now) }
{
    out.push(b'"')?;
    for byte in text.as_bytes() {
        print_byte(out, *byte)?;
    }
    out.push(b'"')?;
    Ok(())
}

fn print_byte(out: &mut Vec<u8>, byte: u8) -> Result<(), AllocError>
    ensures { OnOk result (out.new.items ≡ out.old.items ++ escaped byte) }
{
    match byte {
        b'"' | b'\\' => out.extend_from_slice(&[b'\\', byte]),
        8 => out.extend_from_slice(b"\\b"),
        9 => out.extend_from_slice(b"\\t"),
        10 => out.extend_from_slice(b"\\n"),
        12 => out.extend_from_slice(b"\\f"),
        13 => out.extend_from_slice(b"\\r"),
        0..32 => {
            out.extend_from_slice(b"\\u00")?;
            out.extend_from_slice(&[hex_digit(byte / 16), hex_digit(byte % 16)])
        }
        _ => {
            out.push(byte)?;
            Ok(())
        }
    }
}

fn hex_digit(digit: u8) -> u8
    requires { digit < 16 }
    ensures { result ≡ hex_digit digit }
{
    if digit < 10 {
        b'0' + digit
    } else {
        b'a' + (digit - 10)
    }
}

/// Degrees in decimal notation: a minus where they are negative, the whole degrees, and, where
/// there is a fraction, a point and its decimals up to the last that isn't zero. `print_tree`
/// prints coordinates in this way too.
pub fn print_units(alloc: Global, units: Units7) -> Result<String, AllocError>
    ensures text { IfOk result (λ s. string_bytes s ≡ printed_degrees units) }
{
    let mut out = Vec::new(alloc);
    print_degrees(&mut out, units)?;
    Ok(unsafe { String::from_utf8_unchecked(out) })
}

fn print_degrees(out: &mut Vec<u8>, units: Units7) -> Result<(), AllocError>
    ensures { OnOk result (out.new.items ≡ out.old.items ++ printed_degrees units) }
{
    let units = units.get();
    if units < 0 {
        out.push(b'-')?;
    }
    let size = units.unsigned_abs();
    let whole = (size / DEGREE).to_string(*out.allocator())?;
    out.extend_from_slice(whole.as_bytes())?;
    print_fraction(out, size % DEGREE)
}

fn print_fraction(out: &mut Vec<u8>, rest: u64) -> Result<(), AllocError>
    requires { rest < 10 ^ 7 }
    ensures { OnOk result (out.new.items ≡ out.old.items ++ fraction rest) }
{
    if rest == 0 {
        return Ok(());
    }
    out.push(b'.')?;
    let mut rest = rest;
    let mut unit = DEGREE;
    while rest > 0 {
        unit /= 10;
        out.push(b'0' + (rest / unit) as u8)?;
        rest %= unit;
    }
    Ok(())
}

//! The answer about each operator's compliance, made of the operators' own answers.
ghost use Rattle.std.specs.Prelude.{◌≡◌, ◌++◌, ◌∷◌, codes, drop, IfOk, OnOk};
ghost use Rattle.mds_text.specs.Printed.{comma_if, printed};
ghost use Rattle.mds_machine.specs.Bodies.{number_json};
ghost use Rattle.server_app.specs.OperatorNames.{badge_view};
ghost use Rattle.server_app.specs.ComplianceList.{entry_text};
ghost use Rattle.server_app.specs.Whoami.{badge_json};

use crate::identity::operator_name_members;
use crate::operator_names::OperatorName;
use mds_text::{Moment, int_tree, object_tree, print_tree};
use std::alloc::{AllocError, Global};

/// Begins the answer at a moment: `{"at":MOMENT,"operators":[`. An entry for each operator follows, and `]}`.
///
/// # Errors
///
/// Out of memory.
pub fn begin_compliance_list(alloc: Global, at: Moment) -> Result<Vec<u8>, AllocError>
    ensures { IfOk result (λ text. text.items ≡ codes "{\"at\":" ++ printed (number_json at) ++ codes ",\"operators\":[") }
{
    let moment = print_tree(alloc, &int_tree(at.get()))?;
    let mut text = Vec::new(alloc);
    text.extend_from_slice(b"{\"at\":")?;
    text.extend_from_slice(&moment)?;
    text.extend_from_slice(b",\"operators\":[")?;
    Ok(text)
}

/// An operator's identifier, and its name where it has one, as a JSON object.
fn name_text(alloc: Global, operator: &OperatorName) -> Result<Vec<u8>, AllocError>
    ensures { IfOk result (λ text. text.items ≡ printed (badge_json (badge_view operator.now))) }
{
    print_tree(alloc, &object_tree(operator_name_members(alloc, operator)?))
}

/// Adds a comma, except before the first entry.
fn push_comma(text: &mut Vec<u8>, is_later: bool) -> Result<(), AllocError>
    ensures { OnOk result (text.new.items ≡ text.old.items ++ comma_if is_later) }
{
    if is_later {
        text.push(b',')?;
    }
    Ok(())
}

/// Adds an object with an answer and the members of another object, whose text this is.
fn push_object(text: &mut Vec<u8>, body: &[u8], object: &[u8]) -> Result<(), AllocError>
    ensures { OnOk result (text.new.items
        ≡ text.old.items ++ codes "{\"compliance\":" ++ body.now ++ 44 ∷ drop 1 object.now) }
{
    text.extend_from_slice(b"{\"compliance\":")?;
    text.extend_from_slice(body)?;
    text.push(b',')?;
    // The members and the closing brace, without the opening one.
    match object.split_first() {
        Some((_, members)) => text.extend_from_slice(members),
        None => Ok(()),
    }
}

/// Adds the entry of an operator whose own answer to `GET /compliance` is this body, behind a comma where it isn't the
/// first.
///
/// # Errors
///
/// Out of memory.
pub fn push_compliance(
    text: &mut Vec<u8>,
    is_later: bool,
    body: &[u8],
    operator: &OperatorName,
) -> Result<(), AllocError>
    ensures { OnOk result (text.new.items ≡ text.old.items ++ comma_if is_later ++ entry_text body.now (badge_view operator.now)) }
{
    let name = name_text(*text.allocator(), operator)?;
    push_comma(text, is_later)?;
    push_object(text, body, &name)?;
    Ok(())
}

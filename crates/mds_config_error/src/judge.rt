//! From a text to what is wrong with it.
ghost use Rattle.std.specs.Prelude.{◌≡◌, ◌≤◌, IfOk, length, map, vec_len};
ghost use Rattle.mds_json.specs.Node.{node_view};
ghost use Rattle.mds_request.specs.Configuration.{zone_at};
ghost use Rattle.mds_request.specs.declared.config.TheConstants.{MOST_OPERATORS};
ghost use Rattle.mds_config_error.specs.Diagnosis.{says, operators_at, configuration_of, read_configuration as told, wrong_in};
ghost use Rattle.mds_config_error.specs.Relations.{operator, Shows, Tells};
ghost use Rattle.mds_config_error.specs.declared.wrong.Wrong.TheVariants as wrong;

use crate::alike::check_distinct;
use crate::operators::{ReadOperator, access_at, operators_of};
use crate::stop::DiagnosisStop;
use crate::wrong::Wrong;
use mds_json::{Node, NodeBuffer, document_of, required_list, required_text};
use mds_match::Zone;
use mds_request::MOST_OPERATORS;
use mds_text::{Field, TextFault};
use std::alloc::{AllocError, Global};

/// What is wrong with a text that is no configuration: the first fault in the order in which a configuration is read,
/// with the operator's place. `None` where the text is a configuration. The only error is out of memory.
pub fn diagnose(alloc: Global, text: &[u8]) -> Result<Option<Wrong>, AllocError>
    ensures wrong { IfOk result (λ found. found ≡ wrong_in text.now) }
{
    match read(alloc, text) {
        Ok(()) => Ok(None),
        Err(DiagnosisStop::Wrong(wrong)) => Ok(Some(wrong)),
        Err(DiagnosisStop::NoMemory) => Err(AllocError),
    }
}

/// Reads a text as a configuration, up to what is wrong.
fn read(alloc: Global, text: &[u8]) -> Result<(), DiagnosisStop>
    ensures { Tells (λ u. u) result (told text.now) }
{
    let mut source = NodeBuffer::new(alloc);
    match source.read(alloc, text) {
        Ok(tree) => configuration_of(alloc, &tree),
        Err(TextFault::NoMemory) => Err(DiagnosisStop::NoMemory),
        Err(_) => Err(DiagnosisStop::Wrong(Wrong::Json)),
    }
}

fn configuration_of(alloc: Global, tree: &Node<'_>) -> Result<(), DiagnosisStop>
    ensures { Tells (λ u. u) result (configuration_of (node_view tree.now)) }
{
    let Ok(document) = document_of(tree) else {
        return Err(DiagnosisStop::Wrong(Wrong::Document));
    };
    let Ok(author) = access_at(document, Field::Author) else {
        return Err(DiagnosisStop::Wrong(Wrong::Author));
    };
    let operators = operators_at(alloc, document)?;
    zone_at(document)?;
    check_distinct(author, &operators)?;
    Ok(())
}

/// The required member `operators`, with at most `MOST_OPERATORS`.
fn operators_at(alloc: Global, document: &Node<'_>) -> Result<Vec<ReadOperator>, DiagnosisStop>
    ensures reading { Tells (λ v. map operator v.items) result (operators_at (node_view document.now)) }
    ensures few { IfOk result (λ v. vec_len v ≤ MOST_OPERATORS) }
{
    let list = match required_list(alloc, document, Field::Operators) {
        Ok(list) => list,
        Err(TextFault::NoMemory) => return Err(DiagnosisStop::NoMemory),
        Err(_) => return Err(DiagnosisStop::Wrong(Wrong::Operators)),
    };
    let entries = list.as_slice();
    if entries.len() > MOST_OPERATORS {
        return Err(DiagnosisStop::Wrong(Wrong::TooManyOperators));
    }
    operators_of(alloc, entries)
}

/// The required member `zone`.
fn zone_at(document: &Node<'_>) -> Result<Zone, Wrong>
    ensures { Shows (λ z. z) result (says wrong.Zone (zone_at (node_view document.now))) }
{
    let Ok(text) = required_text(document, Field::Zone) else {
        return Err(Wrong::Zone);
    };
    match Zone::read(text) {
        Ok(zone) => Ok(zone),
        Err(_) => Err(Wrong::Zone),
    }
}

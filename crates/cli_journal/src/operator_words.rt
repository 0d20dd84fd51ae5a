//! The operators of a configuration with their identifiers, for whoever gave a name in the place of one.
ghost use Rattle.std.specs.Prelude.{◌≡◌, map, option_map, string_bytes};
ghost use Rattle.cli_journal.specs.OperatorWords.{configuration_named, is_name, operator_named};

use crate::configuration::{configuration_text, operator_names_in};
use cli_host::{ConfigHost, MessageHost};
use mds_text::Id;
use server_app::OperatorName;

/// Whether an argument behind another one is no identifier, where one is to stand.
fn is_name(option: &str, value: &str) -> bool
    ensures { result ≡ is_name option.now value.now }
{
    option == "--operator" && Id::read(value).is_none()
}

/// The first argument that is no identifier where one of an operator is to stand.
fn operator_named(words: &[String]) -> Option<&str>
    ensures { option_map (λ name. name.now) result ≡ operator_named (map string_bytes words.now) }
{
    let mut rest = words;
    while let Some((word, values)) = rest.split_first() {
        let Some((value, _)) = values.split_first() else {
            return None;
        };
        if is_name(word.as_str(), value.as_str()) {
            return Some(value.as_str());
        }
        rest = values;
    }
    None
}

/// The argument that names the configuration's file.
fn configuration_named(words: &[String]) -> Option<&str>
    ensures { option_map (λ path. path.now) result ≡ configuration_named (map string_bytes words.now) }
{
    let mut rest = words;
    while let Some((word, values)) = rest.split_first() {
        let Some((value, _)) = values.split_first() else {
            return None;
        };
        if word.as_str() == "--config" {
            return Some(value.as_str());
        }
        rest = values;
    }
    None
}

/// Reports an operator's identifier and name.
fn report_operator<R: MessageHost>(rt: &R, operator: &OperatorName) {
    let Ok(id) = operator.id.print(rt.alloc()) else {
        return;
    };
    let _ = match &operator.name {
        Some(name) => eprintln!(rt; "{id} {name:?}"),
        None => eprintln!(rt; "{id}"),
    };
}

/// Reports the operators of the configuration in a file; nothing where that can't be read, or is none.
pub(crate) fn report_operators<R: ConfigHost>(rt: &R, path: &str) {
    let alloc = rt.alloc();
    let Ok(text) = configuration_text(rt, alloc, path) else {
        return;
    };
    let Ok(names) = operator_names_in(alloc, &text) else {
        return;
    };
    let _ = eprintln!(rt; "operators in {path}:");
    for operator in names.operators() {
        report_operator(rt, operator);
    }
}

/// Reports an argument that is no identifier where one of an operator is to stand, and which ones the configuration has.
pub(crate) fn report_name<R: ConfigHost>(rt: &R, words: &[String]) {
    let Some(name) = operator_named(words) else {
        return;
    };
    let _ = eprintln!(rt; "--operator takes an operator's id, not its name: {name}");
    if let Some(path) = configuration_named(words) {
        report_operators(rt, path);
    }
}

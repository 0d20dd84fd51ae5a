//! The metrics, in Prometheus' text format.
ghost use Rattle.std.specs.Prelude.{◌≡◌, IfOk, string_bytes, flat_map};
ghost use Rattle.server_control.specs.Lines.{metadata_of, line_text};

use crate::families::Family;
use std::alloc::{AllocError, Global};
use std::fmt;

/// What stands before a line.
#[derive(Clone, Copy)]
pub enum Metadata {
    /// Before the first line of a family: its help text and its kind.
    Family(Family),
    /// Before any further line.
    Nothing,
}

/// One line: a metric and its value.
#[derive(Clone, Copy)]
pub struct MetricLine<'a> {
    /// What stands before it.
    pub metadata: Metadata,
    /// The name of the metric.
    pub name: &'static str,
    /// What follows the name, such as its labels.
    pub end: &'a str,
    /// The value.
    pub value: u64,
}

impl Metadata {
    /// What stands before the line of a family that has so many lines before it.
    pub(crate) fn of(family: Family, index: usize) -> Metadata
        ensures { result ≡ metadata_of family index }
    {
        if index == 0 {
            Metadata::Family(family)
        } else {
            Metadata::Nothing
        }
    }
}

impl fmt::Display for Metadata {
    ghost use Rattle.std.specs.Prelude.{Some};
    ghost use Rattle.server_control.specs.Lines.{metadata_text};

    ghost output = { λ metadata. Some (metadata_text metadata) };

    fn fmt<W: fmt::Write>(&self, f: &mut fmt::Formatter<W>) -> fmt::Result {
        match *self {
            Metadata::Family(Family { name, help, kind }) => {
                write!(f, "# HELP {name} {help}\n# TYPE {name} {kind}\n")
            }
            Metadata::Nothing => Ok(()),
        }
    }
}

impl fmt::Display for MetricLine<'_> {
    ghost use Rattle.std.specs.Prelude.{Some};
    ghost use Rattle.server_control.specs.Lines.{line_text};

    ghost output = { λ line. Some (line_text line) };

    fn fmt<W: fmt::Write>(&self, f: &mut fmt::Formatter<W>) -> fmt::Result {
        let (metadata, name, end, value) = (self.metadata, self.name, self.end, self.value);
        write!(f, "{metadata}{name}{end} {value}\n")
    }
}

/// The text of these lines, in their order.
///
/// # Errors
///
/// Out of memory.
pub fn metrics(alloc: Global, lines: &[MetricLine<'_>]) -> Result<String, AllocError>
    ensures { IfOk result (λ text. string_bytes text ≡ flat_map line_text lines.now) }
{
    let mut text = String::new(alloc);
    for line in lines {
        write!(text, "{line}")?;
    }
    Ok(text)
}

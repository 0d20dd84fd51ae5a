//! A vehicle report: what an operator sends about one vehicle.
use crate::reading::report_of;
use mds_geometry::Position;
use mds_json::{NodeBuffer, ReusableScratch};
use mds_match::Words;
use mds_text::{Id, Moment, TextFault, Token, Tree};
use std::alloc::Global;
use std::sync::Arc;

/// What an operator reports of one of its vehicles. Lists stay as reported, in order and with repeats.
#[derive(Drop)]
pub struct Report {
    /// The device's identifier.
    pub device: Id,
    /// The vehicle's type and its types of propulsion.
    pub make: Arc<Words>,
    /// The vehicle's state and the types of the events that led to it.
    pub condition: Arc<Words>,
    /// When the vehicle was in that state, in milliseconds since the Unix epoch.
    pub timestamp: Moment,
    /// Where the vehicle is.
    pub position: Position,
}

impl Report {
    ghost use Rattle.std.specs.Prelude.{◌≡◌};
    ghost use Rattle.mds_text.specs.Fault.{Gives, text_cause};
    ghost use Rattle.mds_fleet.specs.Books.{report_document};
    ghost use Rattle.mds_fleet.specs.Reading.{read_report};

    /// Reads a report: a JSON object with `device_id`, `vehicle_type`, optionally `propulsion_types`,
    /// `vehicle_state`, optionally `event_types`, `timestamp` and `location`, an object with `lat` and
    /// `lng` in degrees. An optional member that is absent or null is the empty list.
    ///
    /// # Errors
    ///
    /// `BadJson` for a text that is no JSON (RFC 8259); else the fault of the first member, in this
    /// order, that is missing or of another kind (`BadField`), is a coordinate's text but no number
    /// (`BadNumber`), or is out of range (`OutOfRange`).
    pub fn read(alloc: Global, text: &[u8]) -> Result<Report, TextFault>
        ensures { Gives text_cause report_document result (read_report text.now) }
    {
        let mut source = NodeBuffer::new(alloc);
        let tree = source.read(alloc, text)?;
        report_of(alloc, &tree)
    }

    /// Reads a report as `read` does; a text of at most `ReusableScratch::MOST_BYTES` bytes with scratch memory that is
    /// reused.
    ///
    /// # Errors
    ///
    /// Those of `read`.
    pub fn read_with(
        alloc: Global,
        kept: &mut ReusableScratch,
        text: &[u8],
    ) -> Result<Report, TextFault>
        ensures { Gives text_cause report_document result (read_report text.now) }
    {
        if text.len() > ReusableScratch::MOST_BYTES {
            return Report::read(alloc, text);
        }
        let mut unusual = Tree::Null;
        let (tree, _quoted) = kept.read_and_count(alloc, &mut unusual, text)?;
        report_of(alloc, &tree)
    }

    /// The vehicle's type.
    pub fn vehicle_type(&self) -> Token
        ensures { result ≡ (report_document self.now).vehicle_type }
    {
        self.make.word
    }

    /// The vehicle's types of propulsion.
    pub fn propulsion(&self) -> &[Token]
        ensures { result.now ≡ (report_document self.now).propulsion }
    {
        &self.make.types
    }

    /// The vehicle's state.
    pub fn state(&self) -> Token
        ensures { result ≡ (report_document self.now).state }
    {
        self.condition.word
    }

    /// The types of the events that led to the state.
    pub fn events(&self) -> &[Token]
        ensures { result.now ≡ (report_document self.now).events }
    {
        &self.condition.types
    }
}

//! Vehicles as rules see them, and the words that they share.
use mds_geometry::Position;
use mds_text::{Id, Moment, Token};
use std::alloc::{AllocError, Global};
use std::sync::Arc;

/// The most vehicles of one operator.
pub const MOST_VEHICLES: u32 = 200_000;

/// A word that describes a vehicle, with its list of types: the vehicle type with the propulsion
/// types, or the state with the types of the events that led to it. Vehicles with equal words may
/// share them.
#[derive(Drop)]
pub struct Words {
    /// The vehicle type or the state.
    pub word: Token,
    /// Its propulsion types, or the types of the events that led to it, as they were reported.
    pub types: Vec<Token>,
}

impl Words {
    ghost use Rattle.std.specs.Prelude.{◌≡◌, IfOk};

    /// A reference to a word and its types that many vehicles may share.
    ///
    /// # Errors
    ///
    /// Out of memory.
    pub fn new_shared(
        alloc: Global,
        word: Token,
        types: Vec<Token>,
    ) -> Result<Arc<Words>, AllocError>
        ensures word { IfOk result (λ share. share.value.word ≡ word) }
        ensures types { IfOk result (λ share. share.value.types ≡ types) }
    {
        Ok(Arc::new(alloc, Words { word, types })?)
    }
}

/// A device by its last accepted report, and since when its state lasts.
#[derive(Drop)]
pub struct Vehicle {
    pub device: Id,
    /// The vehicle type with the propulsion types.
    pub make: Arc<Words>,
    /// The state with the types of the events that led to it.
    pub condition: Arc<Words>,
    /// The report's own timestamp.
    pub timestamp: Moment,
    pub position: Position,
    /// The timestamp of the first report in the unbroken run of reports with this state.
    pub since: Moment,
}

impl Vehicle {
    ghost use Rattle.std.specs.Prelude.{◌≡◌};
    ghost use Rattle.mds_match.specs.Row.{row_of};

    /// The vehicle's type.
    pub fn vehicle_type(&self) -> Token
        ensures { result ≡ (row_of self.now).vehicle_type }
    {
        self.make.word
    }

    /// Its propulsion types.
    pub fn propulsion(&self) -> &[Token]
        ensures { result.now ≡ (row_of self.now).propulsion }
    {
        &self.make.types
    }

    /// Its state.
    pub fn state(&self) -> Token
        ensures { result ≡ (row_of self.now).state }
    {
        self.condition.word
    }

    /// The types of the events that led to its state.
    pub fn events(&self) -> &[Token]
        ensures { result.now ≡ (row_of self.now).events }
    {
        &self.condition.types
    }
}

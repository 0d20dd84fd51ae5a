//! Identifiers, words, moments, positions and a square, for the tests of the core.

ghost use Rattle.std.specs.Prelude.{[], cond, bytes_eq};

use mds_geometry::{Area, Polygon, Position, Ring};
use mds_match::{Local, Places, Words};
use mds_text::{Id, Moment, Token, Units7};
use std::alloc::{AllocError, Global};
use std::process::Abort;
use std::sync::Arc;

/// Thursday, noon.
pub(crate) const NOON: Local = Local {
    weekday: 4,
    second: 43200,
};

/// Places with one square, and no geography under any other identifier.
#[derive(Drop)]
pub(crate) struct Square {
    id: Id,
    square: Area,
}

impl Places for Square {
    ghost polygons = { λ s id. cond (bytes_eq id s.id) s.square [] };

    fn holds(&self, geography: Id, position: Position) -> bool {
        geography == self.id && self.square.holds(position)
    }

    fn area(&self, geography: Id) -> Option<&Area> {
        if geography == self.id {
            Some(&self.square)
        } else {
            None
        }
    }
}

/// The identifier that a text spells.
pub(crate) fn id_of(rt: &impl Abort, text: &str) -> Id {
    Id::read(text).expect(rt, "an identifier")
}

/// The moment so many milliseconds after the Unix epoch.
pub(crate) fn instant(rt: &impl Abort, millis: i64) -> Moment {
    Moment::new(millis).expect(rt, "a moment")
}

/// The word that a text spells.
pub(crate) fn word(rt: &impl Abort, text: &str) -> Token {
    Token::read(text).expect(rt, "a token")
}

/// A word without types.
pub(crate) fn words(rt: &impl Abort, alloc: Global, text: &str) -> Result<Arc<Words>, AllocError> {
    Words::new_shared(alloc, word(rt, text), Vec::new(alloc))
}

/// The position at these coordinates, in units of 10^-7 degree.
pub(crate) fn position(rt: &impl Abort, lng: i64, lat: i64) -> Position {
    Position {
        lng: Units7::new(lng).expect(rt, "a longitude"),
        lat: Units7::new(lat).expect(rt, "a latitude"),
    }
}

const DEVICE: &[u8; 36] = b"00000000-0000-4000-8000-000000000000";

/// The device identifier that ends in this number, in hexadecimal digits.
pub(crate) fn device(rt: &impl Abort, number: u32) -> Id {
    let mut text = *DEVICE;
    let mut rest = number;
    for byte in text.iter_mut().rev().take(8) {
        *byte = digit(rest % 16);
        rest /= 16;
    }
    id_of(rt, std::str::from_utf8(&text).expect(rt, "a text"))
}

fn digit(value: u32) -> u8 {
    match value {
        0..=9 => b'0' + value as u8,
        10..=15 => b'a' - 10 + value as u8,
        _ => b'?',
    }
}

/// A square from 0 to 10 degrees.
fn area(rt: &impl Abort, alloc: Global) -> Result<Area, AllocError> {
    let corner = position(rt, 0, 0);
    let corners = [
        corner,
        position(rt, 100_000_000, 0),
        position(rt, 100_000_000, 100_000_000),
        position(rt, 0, 100_000_000),
        corner,
    ];
    let ring = Ring::new(Vec::from_array(alloc, corners)?).expect(rt, "a ring");
    let polygon = Polygon::new(vec![in alloc; ring]?);
    Area::new(alloc, vec![in alloc; polygon]?)
}

/// Places with the square under the identifier that ends in 101.
pub(crate) fn one_square(rt: &impl Abort, alloc: Global) -> Result<Square, AllocError> {
    Ok(Square {
        id: id_of(rt, "00000000-0000-4000-8000-000000000101"),
        square: area(rt, alloc)?,
    })
}

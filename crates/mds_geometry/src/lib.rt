//! Positions, linear rings and polygons of RFC 7946, the grid and strips of an area, and which
//! positions a polygon holds.
#![tactic(auto)]

mod area;
mod band;
mod blocks;
mod bounds;
mod cell;
mod coordinate;
mod decimal;
mod edge;
mod extent;
mod fit;
mod gather;
mod grid;
pub mod laws;
mod marks;
mod polygon;
mod position;
mod ray;
mod ring;
mod scale;
mod start;
mod strip;
mod strip_index;
mod strips;

pub use area::{Area, area_holds};
pub use coordinate::{
    MOST_LATITUDE, MOST_LONGITUDE, coordinate_of, coordinate_of_node, coordinate_of_text,
};
pub use polygon::Polygon;
pub use position::Position;
pub use ring::{Ring, RingFault};

// The result sheet: what it is made from, the lengths of its parts, and what is told of an accepted one.
#![tactic(auto)]

use newtonian::Vector;
use std::fmt;

// The bytes of a sheet's trailer, of a vertex, of a face's corners, of a face with its entries of the order list and of the mates, and of a station.
pub const TRAILER_LENGTH: usize = 80;

pub const VERTEX_LENGTH: usize = 24;

pub const CORNERS_LENGTH: usize = 12;

pub const FACE_LENGTH: usize = 36;

pub const STATION_LENGTH: usize = 24;

// What a sheet is made from: three coordinates to a vertex and to a station, three vertex numbers to a face.
#[derive(Clone, Copy)]
pub struct Source<'a> {
    pub kind: u32,
    pub verts: &'a [f64],
    pub faces: &'a [u32],
    pub magnetisation: Vector,
    pub ambient: Vector,
    pub stations: &'a [f64],
}

// What `check_sheet` answers of a sheet that it accepts: the kind and S that stand in the trailer.
#[derive(Clone, Copy, Debug, PartialEq, Eq)]
pub struct Accepted {
    pub kind: u32,
    pub stations: u32,
}

// As `recheck` prints it.
impl fmt::Display for Accepted {
    fn fmt<W: fmt::Write>(&self, f: &mut fmt::Formatter<W>) -> fmt::Result {
        write!(f, "accepted {} {}", self.kind, self.stations)
    }
}

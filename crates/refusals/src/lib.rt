// The refusals: one case for each number of document 01's table, with the values that it returns, and for each number that document 02's orders add, which have none.
#![tactic(auto)]

ghost use Rattle.std.specs.Prelude.{◌≡◌};
ghost use Rattle.refusals.specs.Numbers.{number_of, place_of};

use std::error::Error;
use std::fmt;

#[derive(Clone, Copy, Debug, PartialEq, Eq)]
pub enum Refusal {
    // 1: a list's length is not a multiple of 3, the kind is not 1 or 2, or kind 2 comes without V = 2 and F = 0
    Malformed,
    // 2: a count over its limit
    TooMany,
    // 3: a number that is not finite, or over 10⁹
    OutOfLimits,
    // 4: the face with an index of no vertex
    NoSuchVertex(u32),
    // 5: the smallest edge, from and to, that occurs twice
    Flipped(u32, u32),
    // 6: the smallest edge, from and to, whose reverse does not occur
    Open(u32, u32),
    // 7: the first face whose computed normal is zero
    Degenerate(u32),
    // 8: the computed volume is not above zero
    Inverted,
    // 9: a prism's side below 10⁻⁶
    TooThin,
    // 10: the station whose field would take a 33rd bisection
    TooDeep(u32),
    // 11: the station with a 65th edge through it
    TooManyEdges(u32),
    // 12: work or out is too short
    TooShort,
    // 13: the station whose computed row is not finite
    NotFinite(u32),
    // 14: outside the domain
    OutsideDomain,
    // 15: Carlson's test still holds after 64 rounds
    TooManyRounds,
    // 16: the sheet's length or its pointer is not what its counts give
    WrongLength,
    // 17: the order list has an entry of no edge use, or its edges do not ascend strictly
    WrongOrder,
    // 18: a mate is no edge use, or not the reverse
    WrongMate,
    // 19: the volume's bits differ
    WrongVolume,
    // 20: the station whose row's bits differ
    WrongRow(u32),
    // 21: the first bad line of an OBJ text is of none of the forms that are read
    WrongLine,
    // 22: it is of a right form, and a number or an index in it has more than 15 digits
    TooManyDigits,
}

impl Refusal {
    // The refusal's number in documents 01 and 02, whose table this is: some cases carry a place, so that no cast gives it.
    pub fn number(self) -> u32
        ensures { result ≡ number_of self }
    {
        match self {
            Refusal::Malformed => 1,
            Refusal::TooMany => 2,
            Refusal::OutOfLimits => 3,
            Refusal::NoSuchVertex(_) => 4,
            Refusal::Flipped(_, _) => 5,
            Refusal::Open(_, _) => 6,
            Refusal::Degenerate(_) => 7,
            Refusal::Inverted => 8,
            Refusal::TooThin => 9,
            Refusal::TooDeep(_) => 10,
            Refusal::TooManyEdges(_) => 11,
            Refusal::TooShort => 12,
            Refusal::NotFinite(_) => 13,
            Refusal::OutsideDomain => 14,
            Refusal::TooManyRounds => 15,
            Refusal::WrongLength => 16,
            Refusal::WrongOrder => 17,
            Refusal::WrongMate => 18,
            Refusal::WrongVolume => 19,
            Refusal::WrongRow(_) => 20,
            Refusal::WrongLine => 21,
            Refusal::TooManyDigits => 22,
        }
    }

    // The place that `recheck` prints beside the number: the face or the station, else 0.
    pub fn place(self) -> u32
        ensures { result ≡ place_of self }
    {
        match self {
            Refusal::NoSuchVertex(face) | Refusal::Degenerate(face) => face,
            Refusal::TooDeep(station)
            | Refusal::TooManyEdges(station)
            | Refusal::NotFinite(station)
            | Refusal::WrongRow(station) => station,
            Refusal::Malformed
            | Refusal::TooMany
            | Refusal::OutOfLimits
            | Refusal::Flipped(_, _)
            | Refusal::Open(_, _)
            | Refusal::Inverted
            | Refusal::TooThin
            | Refusal::TooShort
            | Refusal::OutsideDomain
            | Refusal::TooManyRounds
            | Refusal::WrongLength
            | Refusal::WrongOrder
            | Refusal::WrongMate
            | Refusal::WrongVolume
            | Refusal::WrongLine
            | Refusal::TooManyDigits => 0,
        }
    }
}

// As `recheck` prints it: the number, then the place.
impl fmt::Display for Refusal {
    fn fmt<W: fmt::Write>(&self, f: &mut fmt::Formatter<W>) -> fmt::Result {
        let number = self.number();
        let place = self.place();
        write!(f, "refused {number} {place}")
    }
}

impl Error for Refusal {}

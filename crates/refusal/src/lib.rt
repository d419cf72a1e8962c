// The refusals, each by its number: a call that refuses answers the first that applies, and changes nothing.
#![tactic(auto)]

ghost use Rattle.std.specs.Prelude.{◌≡◌, Some};
ghost use Rattle.refusal.specs.Number.{number_of, printed_of};

use std::error::Error;
use std::fmt;

#[derive(Clone, Copy, Debug, PartialEq, Eq, Hash)]
pub enum Refusal {
    // kind has no row
    Kind = 1,
    // a float is NaN or infinite
    Float = 2,
    // central meridian, longitude and latitude too far from 0
    Central = 3,
    Longitude = 4,
    Latitude = 5,
    // a place past the north pole, and past the parallel's east end
    North = 6,
    East = 7,
    // a piece of another length than a record's or a note's, and what stands in it
    Length = 8,
    Mark = 9,
    Form = 10,
    // a session that counts no more
    Full = 11,
    // a text's length, its shape, minutes or seconds past 59, and a zero with a minus sign
    TextLength = 12,
    TextShape = 13,
    Sixties = 14,
    MinusZero = 15,
    // counts that add to too much
    Counts = 16,
    // a place past the parallel's west end, and past the south pole
    West = 17,
    South = 18,
    // a torn file that is too long, and pieces that are not of its lengths
    TooLong = 23,
    Rooms = 24,
}

impl From<Refusal> for u8 {
    ghost from_gives = { λ refusal n. n ≡ number_of refusal };

    fn from(refusal: Refusal) -> u8 {
        refusal as u8
    }
}

impl fmt::Display for Refusal {
    ghost output = { λ refusal. Some (printed_of refusal) };

    fn fmt<W: fmt::Write>(&self, f: &mut fmt::Formatter<W>) -> fmt::Result {
        write!(f, "refused {}", u8::from(*self))
    }
}

impl Error for Refusal {}

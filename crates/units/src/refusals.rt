// Why a call is refused: each reason has its number in the papers' table; 0 is none.
ghost use Rattle.std.specs.Prelude.{◌≡◌};
ghost use Rattle.units.specs.Refusals.{number, refusal_number, unless};

use std::error::Error;
use std::fmt;

#[derive(Clone, Copy, Debug, PartialEq, Eq)]
pub enum Refusal {
    // A coordinate is NaN or infinite.
    NotFinite = 2,
    // A coordinate, a cell's side or a cell number is beyond its limits.
    OutOfLimits = 3,
    // The position is too far from the centre.
    TooFar = 4,
    // The lent lists are of unequal length.
    UnequalLists = 5,
    // The lists are longer than 4,096.
    LongLists = 6,
    // A field of the parameter set is outside its table; the fields in the table's order.
    BadA = 11,
    BadE2 = 12,
    BadLat0 = 13,
    BadLon0 = 14,
    BadFalseEasting = 15,
    BadFalseNorthing = 16,
    // A text is not the code of a cell.
    NotACode = 31,
    // A cell number is negative, so that the cell has no code.
    NegativeCell = 32,
    // Fewer bytes are lent than the code has.
    LittleRoom = 33,
    // A power is NaN or infinite.
    PowerNotFinite = 41,
    // A power is below 0 or above 1,000 mW.
    PowerOutOfLimits = 42,
    // The cell has 1,000,000 readings.
    FullCell = 43,
    // The cell has no slot, and its loop gets no new one.
    NoNewSlot = 44,
    // The loop number is not 1 or 2.
    BadLoop = 45,
}

impl Refusal {
    pub fn number(self) -> u8
        ensures { result ≡ number self }
    {
        self as u8
    }

    // A link in a chain of tests: goes on where the test is passed.
    pub fn unless(self, passed: bool) -> Result<(), Refusal>
        ensures { refusal_number result ≡ unless passed (number self) 0 }
    {
        if passed { Ok(()) } else { Err(self) }
    }
}

impl fmt::Display for Refusal {
    fn fmt<W: fmt::Write>(&self, f: &mut fmt::Formatter<W>) -> fmt::Result {
        write!(f, "refused {}", self.number())
    }
}

impl Error for Refusal {}

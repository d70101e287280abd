// What a call for C writes and returns, from what the library answers.
#![tactic(auto)]

ghost use Rattle.std.specs.Prelude.{◌≡◌, [], ◌∷◌, pos};
ghost use Rattle.units.specs.Refusals.{refusal_number};
ghost use Rattle.cells.specs.Cells.{side_length};
ghost use Rattle.c_answers.specs.InnerAnswers.{left};

use azimuthal_forward::{GeodeticPosition, PlanePosition};
use cells::CellNumbers;
use code_reading::CodeCell;
use pairs::{GeodeticPair, PlanePair};
use tallies::Sums;
use units::refusals::Refusal;

// What a call gives, as C has it in a lent place.
pub trait InC: Copy {
    type Lent: Copy;

    ghost lent: { Self → Self.Lent };

    fn in_c(self) -> Self::Lent
        ensures { result ≡ lent self };
}

// A count of points, or the length of a code.
impl InC for u64 {
    type Lent = u64;

    ghost lent = { λ count. count };

    fn in_c(self) -> u64 {
        self
    }
}

impl InC for PlanePosition {
    type Lent = [i64; 2];

    ghost lent = { λ at. at.easting ∷ at.northing ∷ [] };

    fn in_c(self) -> [i64; 2] {
        [self.easting, self.northing]
    }
}

impl InC for GeodeticPosition {
    type Lent = [i64; 2];

    ghost lent = { λ at. at.latitude.0 ∷ at.longitude ∷ [] };

    fn in_c(self) -> [i64; 2] {
        [self.latitude.0, self.longitude]
    }
}

impl InC for PlanePair {
    type Lent = [f64; 2];

    ghost lent = { λ to. to.first ∷ to.second ∷ [] };

    fn in_c(self) -> [f64; 2] {
        [self.first, self.second]
    }
}

impl InC for GeodeticPair {
    type Lent = [f64; 2];

    ghost lent = { λ to. to.latitude ∷ to.longitude ∷ [] };

    fn in_c(self) -> [f64; 2] {
        [self.latitude, self.longitude]
    }
}

impl InC for CellNumbers {
    type Lent = [i64; 2];

    ghost lent = { λ numbers. numbers.east ∷ numbers.north ∷ [] };

    fn in_c(self) -> [i64; 2] {
        [self.east, self.north]
    }
}

// The side's length, and the cell's numbers.
impl InC for CodeCell {
    type Lent = [i64; 3];

    ghost lent = { λ cell. pos (side_length cell.side) ∷ cell.east ∷ cell.north ∷ [] };

    fn in_c(self) -> [i64; 3] {
        [self.side.length(), self.east, self.north]
    }
}

impl InC for Sums {
    type Lent = [u64; 3];

    ghost lent = { λ sums. sums.sum ∷ sums.count ∷ sums.overloads ∷ [] };

    fn in_c(self) -> [u64; 3] {
        [self.sum, self.count, self.overloads]
    }
}

// The refusal number; 0 is none.
pub fn number_of<T: Copy>(given: Result<T, Refusal>) -> u8
    ensures { result ≡ refusal_number given }
{
    match given {
        Ok(_) => 0,
        Err(refusal) => refusal.number(),
    }
}

// Writes what is given where the call is not refused, and only there. Returns the refusal number; 0 is none.
pub fn answer<T: InC>(given: Result<T, Refusal>, out: &mut T::Lent) -> u8
    ensures value { result ≡ refusal_number given }
    ensures out_after { out.new ≡ left T.lent given out.old }
{
    match given {
        Ok(value) => {
            *out = value.in_c();
            0
        }
        Err(refused) => refused.number(),
    }
}

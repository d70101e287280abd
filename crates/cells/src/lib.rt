// The cell of a position: document 01, "Cells", with the cell number of document 02, b). Sides and coordinates are in cm.
#![tactic(auto)]

ghost use Rattle.std.specs.Prelude.{◌≡◌, pos};
ghost use Rattle.units.specs.Refusals.{refusal_number, unless, out_of_limits};
ghost use Rattle.cells.specs.Cells.{
  side_length,
  IsSideOf,
  cell_number,
  top,
  numbered,
  numbers_refusal,
  cell_of,
  cell_answer,
  cell_told,
  told_of_cell,
};

use units::refusals::Refusal;
use units::{PLANE_MOST, are_within, is_on_plane};

// The sides of 100 m, 1 km and 10 km.
pub const SIDE_100_M: i64 = 10_000;

pub const SIDE_1_KM: i64 = 100_000;

pub const SIDE_10_KM: i64 = 1_000_000;

// The side of a cell.
#[derive(Clone, Copy, Debug, PartialEq, Eq)]
pub enum Side {
    Metres100,
    Kilometre,
    Kilometres10,
}

// Another length is refused.
impl TryFrom<i64> for Side {
    type Error = Refusal;

    ghost try_from_gives = { IsSideOf };

    #[tactic(auto, unfolding(crate::specs::Cells::accepted_side, units::specs::Spans::same, units::specs::Spans::within))]
    fn try_from(length: i64) -> Result<Side, Refusal> {
        match length {
            SIDE_100_M => Ok(Side::Metres100),
            SIDE_1_KM => Ok(Side::Kilometre),
            SIDE_10_KM => Ok(Side::Kilometres10),
            _ => Err(Refusal::OutOfLimits),
        }
    }
}

impl Side {
    pub fn length(self) -> i64
        ensures { result ≡ pos (side_length self) }
    {
        match self {
            Side::Metres100 => SIDE_100_M,
            Side::Kilometre => SIDE_1_KM,
            Side::Kilometres10 => SIDE_10_KM,
        }
    }

    // The number, along its axis, of the cell that a coordinate lies in.
    #[tactic(auto, using(crate::proofs::Calls::by_division))]
    pub fn cell_number(self, coordinate: i64) -> i64
        ensures { result ≡ cell_number (side_length self) coordinate }
    {
        coordinate.div_euclid(self.length())
    }

    // The number of the top cell along an axis.
    pub fn top_number(self) -> i64
        ensures { result ≡ pos (top (side_length self)) }
    {
        PLANE_MOST / self.length()
    }

    // Refuses numbers that no cell of this side has.
    pub fn check_numbers(self, east: i64, north: i64) -> Result<(), Refusal>
        ensures { refusal_number result ≡ unless (numbered (side_length self) east north) out_of_limits 0 }
    {
        let top = self.top_number();
        Refusal::OutOfLimits.unless(are_within(-top, top, east, -top, top, north))
    }
}

// The cell's numbers along the two axes.
#[derive(Clone, Copy, Debug, PartialEq, Eq)]
pub struct CellNumbers {
    pub east: i64,
    pub north: i64,
}

// Refuses a side that cells do not have, and numbers that no cell has.
pub fn check_numbers(side: i64, east: i64, north: i64) -> Result<(), Refusal>
    ensures { refusal_number result ≡ numbers_refusal side east north }
{
    Side::try_from(side)?.check_numbers(east, north)
}

// Any side, any position: the customer's call.
pub fn cell(side: i64, easting: i64, northing: i64) -> Result<CellNumbers, Refusal>
    ensures { let answer = cell_answer result in
        (answer ≡ cell_of side easting northing) × (cell_told answer ≡ told_of_cell side easting northing) }
{
    let side = Side::try_from(side)?;
    Refusal::OutOfLimits.unless(is_on_plane(easting, northing))?;
    Ok(CellNumbers {
        east: side.cell_number(easting),
        north: side.cell_number(northing),
    })
}

// One point, in mas and cm; and the cell of a position.
ghost use Rattle.cells.specs.Cells.{told_of_cell};
ghost use Rattle.azimuthal_forward.specs.Answer.{forward_told};
ghost use Rattle.azimuthal_inverse.specs.Answer.{inverse_told};
ghost use Rattle.laea_c.specs.Calls.{parameters_of, AnswersWhole};

use crate::sets::Set;
use azimuthal_forward::forward;
use azimuthal_inverse::inverse;
use c_answers::answer;
use cells::cell;
use latitudes::Geodetic;
use parameters::Parameters;

// mas to cm: easting and northing.
#[unsafe(no_mangle)]
pub extern "C" fn laea1_forward_whole(
    set: Set,
    latitude: i64,
    longitude: i64,
    out: &mut [i64; 2],
) -> u8
    ensures { AnswersWhole (forward_told (parameters_of set) (record { 0 = latitude }) longitude) out.old out.new result }
{
    answer(
        forward(Parameters::from(set), Geodetic(latitude), longitude),
        out,
    )
}

// cm to mas: latitude and longitude.
#[unsafe(no_mangle)]
pub extern "C" fn laea1_inverse_whole(
    set: Set,
    easting: i64,
    northing: i64,
    out: &mut [i64; 2],
) -> u8
    ensures { AnswersWhole (inverse_told (parameters_of set) easting northing) out.old out.new result }
{
    answer(inverse(Parameters::from(set), easting, northing), out)
}

// The cell of a position in cm: its numbers east and north.
#[unsafe(no_mangle)]
pub extern "C" fn laea1_cell(side: i64, easting: i64, northing: i64, out: &mut [i64; 2]) -> u8
    ensures { AnswersWhole (told_of_cell side easting northing) out.old out.new result }
{
    answer(cell(side, easting, northing), out)
}

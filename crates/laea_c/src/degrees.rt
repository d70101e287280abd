// One point, in degrees and metres.
ghost use Rattle.pairs.specs.Pairs.{degrees, metres};
ghost use Rattle.points.specs.Points.{forward_row, inverse_row};
ghost use Rattle.laea_c.specs.Calls.{parameters_of, AnswersFloats};

use crate::sets::Set;
use c_answers::answer;
use pairs::{GeodeticPair, PlanePair};
use parameters::Parameters;
use points::{forward_degrees, inverse_metres};

// Degrees to metres: easting and northing.
#[unsafe(no_mangle)]
pub extern "C" fn laea1_forward(set: Set, latitude: f64, longitude: f64, out: &mut [f64; 2]) -> u8
    ensures { AnswersFloats (forward_row (parameters_of set) (degrees latitude longitude)) out.old out.new result }
{
    let at = GeodeticPair {
        latitude,
        longitude,
    };
    answer(forward_degrees(Parameters::from(set), at), out)
}

// Metres to degrees: latitude and longitude.
#[unsafe(no_mangle)]
pub extern "C" fn laea1_inverse(set: Set, first: f64, second: f64, out: &mut [f64; 2]) -> u8
    ensures { AnswersFloats (inverse_row (parameters_of set) (metres first second)) out.old out.new result }
{
    let at = PlanePair { first, second };
    answer(inverse_metres(Parameters::from(set), at), out)
}

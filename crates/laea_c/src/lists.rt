// Lists of points, in degrees and metres.
ghost use Rattle.row_lists.specs.Rows.{forward_at, inverse_at};
ghost use Rattle.laea_c.specs.Calls.{parameters_of, ListAnswered};

use crate::sets::Set;
use c_answers::answer;
use parameters::Parameters;
use point_lists::{forward_list, inverse_list};

// Degrees to metres.
#[unsafe(no_mangle)]
pub extern "C" fn laea1_forward_list(
    set: Set,
    latitudes: &[f64],
    longitudes: &[f64],
    leading: &mut [f64],
    trailing: &mut [f64],
    marks: &mut [u8],
    count: &mut u64,
) -> u8
    ensures { ListAnswered (parameters_of set) forward_at latitudes.now longitudes.now
        leading.old leading.new trailing.old trailing.new
        marks.old marks.new count.old count.new result }
{
    let p = Parameters::from(set);
    let given = forward_list(p, latitudes, longitudes, leading, trailing, marks);
    answer(given, count)
}

// Metres to degrees.
#[unsafe(no_mangle)]
pub extern "C" fn laea1_inverse_list(
    set: Set,
    leading: &[f64],
    trailing: &[f64],
    latitudes: &mut [f64],
    longitudes: &mut [f64],
    marks: &mut [u8],
    count: &mut u64,
) -> u8
    ensures { ListAnswered (parameters_of set) inverse_at leading.now trailing.now
        latitudes.old latitudes.new longitudes.old longitudes.new
        marks.old marks.new count.old count.new result }
{
    let p = Parameters::from(set);
    let given = inverse_list(p, leading, trailing, latitudes, longitudes, marks);
    answer(given, count)
}

// The parameter set as C has it.
ghost use Rattle.std.specs.Prelude.{◌≡◌};
ghost use Rattle.parameters.specs.ParameterSet.{set_refusal};
ghost use Rattle.laea_c.specs.Calls.{parameters_of};

use c_answers::number_of;
use latitudes::Geodetic;
use parameters::Parameters;

// The fields of document 01's table, in its order. A change of this layout changes the number in
// the functions' names.
#[repr(C)]
#[derive(Clone, Copy)]
pub struct Set {
    pub a: i64,
    pub e2: i64,
    pub lat0: i64,
    pub lon0: i64,
    pub false_easting: i64,
    pub false_northing: i64,
}

// The library's set of these fields.
impl From<Set> for Parameters {
    ghost from_gives = { λ set p. p ≡ parameters_of set };

    fn from(set: Set) -> Parameters {
        Parameters {
            a: set.a,
            e2: set.e2,
            lat0: Geodetic(set.lat0),
            lon0: set.lon0,
            false_easting: set.false_easting,
            false_northing: set.false_northing,
        }
    }
}

// The refusal of a set; 0 is none: the set is accepted.
#[unsafe(no_mangle)]
pub extern "C" fn laea1_set_refusal(set: Set) -> u8
    ensures { result ≡ set_refusal (parameters_of set) }
{
    number_of(Parameters::from(set).check())
}

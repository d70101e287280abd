// The parameter set, its accepted limits and the named set ETRS-LAEA.
#![tactic(auto)]

ghost use Rattle.std.specs.Prelude.{◌≡◌};
ghost use Rattle.units.specs.Refusals.{refusal_number};
ghost use Rattle.parameters.specs.ParameterSet.{accepted_a, accepted_e2, polar, accepted_lat0, accepted_lon0, accepted_false, set_refusal, etrs_laea};

use latitudes::Geodetic;
use units::refusals::Refusal;
use units::{LATITUDE_LEAST, LATITUDE_MOST, is_within};

// Whether a is an accepted semi-major axis.
#[tactic(auto, unfolding(crate::specs::ParameterSet::accepted_a))]
fn is_a(a: i64) -> bool
    ensures { result ≡ accepted_a a }
{
    is_within(Parameters::A_LEAST, Parameters::A_MOST, a)
}

// Whether e2 is an accepted eccentricity squared.
#[tactic(auto, unfolding(crate::specs::ParameterSet::accepted_e2))]
fn is_e2(e2: i64) -> bool
    ensures { result ≡ accepted_e2 e2 }
{
    is_within(Parameters::E2_LEAST, Parameters::E2_MOST, e2)
}

// Whether z is an accepted false easting or northing.
#[tactic(auto, unfolding(crate::specs::ParameterSet::accepted_false))]
fn is_false(z: i64) -> bool
    ensures { result ≡ accepted_false z }
{
    is_within(Parameters::FALSE_LEAST, Parameters::FALSE_MOST, z)
}

// Whether lat0 is a pole.
#[tactic(auto, unfolding(crate::specs::ParameterSet::polar, units::specs::Spans::same))]
pub fn is_pole(lat0: Geodetic) -> bool
    ensures { result ≡ polar lat0 }
{
    is_within(LATITUDE_MOST, LATITUDE_MOST, lat0.0)
        || is_within(LATITUDE_LEAST, LATITUDE_LEAST, lat0.0)
}

// Whether lat0 is an accepted latitude of the natural origin.
#[tactic(auto, unfolding(crate::specs::ParameterSet::accepted_lat0))]
fn is_lat0(lat0: Geodetic) -> bool
    ensures { result ≡ accepted_lat0 lat0 }
{
    is_within(Parameters::LAT0_LEAST, Parameters::LAT0_MOST, lat0.0) || is_pole(lat0)
}

// Whether lon0 is an accepted longitude of the natural origin.
#[tactic(auto, unfolding(crate::specs::ParameterSet::accepted_lon0))]
fn is_lon0(lon0: i64) -> bool
    ensures { result ≡ accepted_lon0 lon0 }
{
    Parameters::LON0_ABOVE < lon0 && lon0 <= Parameters::LON0_MOST
}

// Every bit pattern is a value of every field; `check` says whether the set is accepted.
#[derive(Clone, Copy, Debug, PartialEq, Eq)]
pub struct Parameters {
    // semi-major axis in cm
    pub a: i64,
    // eccentricity squared, in billionths; 0 is the sphere
    pub e2: i64,
    // natural origin in mas
    pub lat0: Geodetic,
    pub lon0: i64,
    // in cm
    pub false_easting: i64,
    pub false_northing: i64,
}

impl Parameters {
    pub const A_LEAST: i64 = 100_000_000;

    pub const A_MOST: i64 = 1_000_000_000;

    pub const E2_LEAST: i64 = 0;

    pub const E2_MOST: i64 = 10_000_000;
    // 85°, either side of the Equator; beyond it only a pole itself
    pub const LAT0_LEAST: i64 = -306_000_000;

    pub const LAT0_MOST: i64 = 306_000_000;
    // above the first, at most the second
    pub const LON0_ABOVE: i64 = -648_000_000;

    pub const LON0_MOST: i64 = 648_000_000;

    pub const FALSE_LEAST: i64 = -1_000_000_000;

    pub const FALSE_MOST: i64 = 1_000_000_000;

    // ETRS89 / ETRS-LAEA
    pub const ETRS_LAEA: Parameters = Parameters {
        a: 637_813_700,
        e2: 6_694_380,
        lat0: Geodetic(187_200_000),
        lon0: 36_000_000,
        false_easting: 432_100_000,
        false_northing: 321_000_000,
    };

    pub fn etrs_laea() -> Parameters
        ensures { result ≡ etrs_laea }
    {
        Parameters::ETRS_LAEA
    }

    // Refused by the first field that is not accepted.
    #[tactic(auto, unfolding(crate::specs::ParameterSet::set_refusal))]
    pub fn check(self) -> Result<(), Refusal>
        ensures { refusal_number result ≡ set_refusal self }
    {
        Refusal::BadA.unless(is_a(self.a))?;
        Refusal::BadE2.unless(is_e2(self.e2))?;
        Refusal::BadLat0.unless(is_lat0(self.lat0))?;
        Refusal::BadLon0.unless(is_lon0(self.lon0))?;
        Refusal::BadFalseEasting.unless(is_false(self.false_easting))?;
        Refusal::BadFalseNorthing.unless(is_false(self.false_northing))
    }
}

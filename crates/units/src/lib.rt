// What every layer shares: the units that angles, lengths and ratios are counted in, the refusal numbers,
// and the tests of whether a number is within its limits.
#![tactic(auto)]

pub mod refusals;

ghost use Rattle.std.specs.Prelude.{◌≡◌, ◌&&◌, ◌≤◌, ◌*◌, nat_abs};
ghost use Rattle.units.specs.Units.{half_turn};
ghost use Rattle.units.specs.Spans.{within, on_plane, wrapped};

// U: ratios, sines and cosines are counted in billionths. The second is for what is divided by U.
pub const UNIT: i64 = 1_000_000_000;

pub const UNIT_DIVISOR: u64 = 1_000_000_000;

// Angles in milliarcseconds (mas), as sizes.
pub const MINUTE: u64 = 60_000;

pub const RIGHT_ANGLE: u64 = 324_000_000;

pub const HALF_TURN: u64 = 648_000_000;

pub const FULL_TURN: u64 = 1_296_000_000;

// Latitude and longitude lie from the first to the second; a longitude repeats after its period.
pub const LATITUDE_LEAST: i64 = -324_000_000;

pub const LATITUDE_MOST: i64 = 324_000_000;

pub const LONGITUDE_LEAST: i64 = -648_000_000;

pub const LONGITUDE_MOST: i64 = 648_000_000;

pub const LONGITUDE_PERIOD: i64 = 1_296_000_000;

// mas in a degree, cm in a metre.
pub const DEGREE: u64 = 3_600_000;

pub const METRE: u64 = 100;

// Nanowatts in a milliwatt.
pub const MILLIWATT: u64 = 1_000_000;

// Easting and northing, in cm, lie from the first to the second.
pub const PLANE_LEAST: i64 = -5_000_000_000;

pub const PLANE_MOST: i64 = 5_000_000_000;

// Whether z is from low to high, both counted.
#[tactic(auto, unfolding(crate::specs::Spans::within))]
pub fn is_within(low: i64, high: i64, z: i64) -> bool
    ensures { result ≡ within low high z }
{
    low <= z && z <= high
}

// Whether x is from low to high and y from least to most.
pub fn are_within(low: i64, high: i64, x: i64, least: i64, most: i64, y: i64) -> bool
    ensures { result ≡ (within low high x && within least most y) }
{
    is_within(low, high, x) && is_within(least, most, y)
}

// Whether easting and northing are within ±50,000,000 m.
pub fn is_on_plane(easting: i64, northing: i64) -> bool
    ensures { result ≡ on_plane easting northing }
{
    are_within(
        PLANE_LEAST,
        PLANE_MOST,
        easting,
        PLANE_LEAST,
        PLANE_MOST,
        northing,
    )
}

// A longitude brought above −180° and to at most 180°.
pub fn wrap(lon: i64) -> i64
    requires { nat_abs lon ≤ 2 * half_turn }
    ensures { result ≡ wrapped lon }
{
    if lon <= LONGITUDE_LEAST {
        return lon + LONGITUDE_PERIOD;
    }
    if LONGITUDE_MOST < lon {
        return lon - LONGITUDE_PERIOD;
    }
    lon
}

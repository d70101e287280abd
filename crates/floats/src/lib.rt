// Degrees and metres, document 01: doubles to whole units and back, and the tests of a coordinate.
// Whole units are milliarcseconds (mas), centimetres (cm) and, for powers, nanowatts.
#![tactic(auto)]

ghost use Rattle.std.specs.Prelude.{◌≡◌, ◌≤◌, ℕ, Float, true};
ghost use Rattle.std.specs.Float.{binary64};
ghost use Rattle.std.specs.Float.Ieee.{of_int};
ghost use Rattle.units.specs.Units.{degree, metre, right_angle, half_turn, plane_limit};
ghost use Rattle.floats.specs.Conversion.{whole_of, float_of};
ghost use Rattle.floats.specs.Limits.{is_finite, within_limit, latitude_limit, longitude_limit, plane_limit_float};
ghost use Rattle.floats.specs.InnerKinds as Kinds;

use integers::{nearest, signed};
use units::{DEGREE, METRE};

// A kind of coordinate: in degrees or metres as a float, and in mas or cm as a whole number.
pub trait Coordinate {
    // A float of this kind is from −LIMIT to LIMIT.
    ghost LIMIT: { Float };

    const LIMIT: f64;

    // The whole units in one degree or one metre.
    ghost UNIT: { ℕ };

    const UNIT: u64;

    // The limit in whole units.
    ghost most: { ℕ };

    // x is finite, and from −LIMIT to LIMIT.
    #[tactic(auto, unfolding(crate::specs::Limits::within_limit, crate::specs::Limits::beyond))]
    fn is_within(x: f64) -> bool
        ensures { result ≡ within_limit LIMIT x }
    {
        is_finite(x) && !(x < -Self::LIMIT || Self::LIMIT < x)
    }

    // In from the double's exact value: near(x · UNIT).
    fn to_whole(x: f64) -> i64
        requires { within_limit LIMIT x ≡ true }
        ensures { result ≡ whole_of UNIT x }
    {
        whole_units(Self::UNIT, x)
    }

    // Out by one rounded division: the double nearest to n, divided once.
    #[tactic(auto, unfolding(crate::specs::Conversion::float_of))]
    fn to_float(n: i64) -> f64
        ensures { result ≡ float_of UNIT n }
    {
        double(n) / double(Self::UNIT as i64)
    }

    ghost laws: { Kinds.Coordinate UNIT LIMIT most };
}

// A latitude, in degrees.
pub struct Latitude;

impl Coordinate for Latitude {
    ghost LIMIT = { latitude_limit };

    const LIMIT: f64 = 90.0;

    ghost UNIT = { degree };

    const UNIT: u64 = DEGREE;

    ghost most = { right_angle };

    ghost laws = { Kinds.latitude };
}

// A longitude, in degrees.
pub struct Longitude;

impl Coordinate for Longitude {
    ghost LIMIT = { longitude_limit };

    const LIMIT: f64 = 180.0;

    ghost UNIT = { degree };

    const UNIT: u64 = Latitude::UNIT;

    ghost most = { half_turn };

    ghost laws = { Kinds.longitude };
}

// An easting or a northing, in metres.
pub struct Plane;

impl Coordinate for Plane {
    ghost LIMIT = { plane_limit_float };

    const LIMIT: f64 = 50_000_000.0;

    ghost UNIT = { metre };

    const UNIT: u64 = METRE;

    ghost most = { plane_limit };

    ghost laws = { Kinds.plane };
}

// x is neither NaN nor infinite.
#[tactic(auto, using(crate::proofs::Bounds::finite_by_std))]
pub fn is_finite(x: f64) -> bool
    ensures { result ≡ is_finite x }
{
    x.is_finite()
}

// The weight of the sign in a double's bit pattern.
const SIGN: u64 = 0x8000_0000_0000_0000;

// That of the exponent's field, and of the leading digit: 2^52.
const FIELD: u64 = 0x10_0000_0000_0000;

// What the product is cut by: 2^24.
const CUT: u64 = 0x100_0000;

// The field of 2^−23, the least double whose answer is worked out.
const LEAST_FIELD: u64 = 1000;

// The field with which the cut product counts whole units.
const WHOLE_FIELD: u64 = 1051;

// near(x · unit). In size x is digits · 2^(field − 1075), and below 2^−23 the answer is 0. The
// product of the digits with the unit can pass 64 bits, so its last 24 bits are cut off: they lie
// below the half that decides.
pub fn whole_units(unit: u64, x: f64) -> i64
    requires { (unit ≤ degree) × (within_limit plane_limit_float x ≡ true) }
    ensures { result ≡ whole_of unit x }
{
    let bits = x.to_bits();
    let field = bits % SIGN / FIELD;
    if field < LEAST_FIELD {
        return 0;
    }
    let digits = bits % FIELD + FIELD;
    let product = digits / CUT * unit + digits % CUT * unit / CUT;
    let size = nearest(product, 1u64 << (WHOLE_FIELD - field));
    signed(bits >= SIGN, size)
}

// The double nearest to n. One that an i32 holds is a double exactly, by one instruction.
fn double(n: i64) -> f64
    ensures { result ≡ of_int binary64 n }
{
    match i32::try_from(n) {
        Ok(small) => f64::from(small),
        Err(_) => std::num::nearest_i64_to_f64(n),
    }
}

// Points in degrees and metres: limits, signs of zero, the half turn, NaN and the infinities.
// The next double after a limit is written by its shortest digits.
use crate::point_rows::Direction::{self, Forward, Inverse};
use crate::point_rows::row;
use crate::sets::{ALL_WRONG, ONE_WRONG, SPHERE};
use parameters::Parameters;
use units::refusals::Refusal;

// The centre of ETRS-LAEA and its false origin.
const LAT0: f64 = 52.0;

const LON0: f64 = 10.0;

const FALSE_EASTING: f64 = 4_321_000.0;

const FALSE_NORTHING: f64 = 3_210_000.0;

// ETRS-LAEA, accepted.
fn degrees(rt: &impl Print, name: &str, lat: f64, lon: f64, first: f64, second: f64) {
    let p = Parameters::ETRS_LAEA;
    row(rt, name, Forward, p, lat, lon, Ok((first, second)));
}

// ETRS-LAEA, refused.
fn refused_row(
    rt: &impl Print,
    name: &str,
    direction: Direction,
    x: f64,
    y: f64,
    refusal: Refusal,
) {
    let p = Parameters::ETRS_LAEA;
    row(rt, name, direction, p, x, y, Err(refusal));
}

pub(crate) fn centre(rt: &impl Print) {
    degrees(rt, "centre", LAT0, LON0, FALSE_EASTING, FALSE_NORTHING);
    let p = Parameters::ETRS_LAEA;
    let right = Ok((LAT0, LON0));
    row(
        rt,
        "centre",
        Inverse,
        p,
        FALSE_EASTING,
        FALSE_NORTHING,
        right,
    );
}

fn beyond(rt: &impl Print, name: &str, lat: f64, lon: f64) {
    refused_row(rt, name, Forward, lat, lon, Refusal::OutOfLimits);
}

// −180° and 180° are alike.
pub(crate) fn limits(rt: &impl Print) {
    degrees(rt, "latitude 90", 90.0, LON0, FALSE_EASTING, 7_369_716.22);
    beyond(rt, "next up", 90.00000000000001, LON0);
    degrees(
        rt,
        "latitude -90",
        -90.0,
        LON0,
        FALSE_EASTING,
        -8_828_174.47,
    );
    beyond(rt, "next down", -90.00000000000001, LON0);
    degrees(rt, "longitude 180", 80.0, 180.0, 4_532_329.67, 8_390_463.61);
    beyond(rt, "next up", 80.0, 180.00000000000003);
    degrees(
        rt,
        "longitude -180",
        80.0,
        -180.0,
        4_532_329.67,
        8_390_463.61,
    );
    beyond(rt, "next down", 80.0, -180.00000000000003);
}

// No set reaches 50,000,000 m, so the limit itself is refused 4.
fn plane_limit(rt: &impl Print, name: &str, limit: f64, next: f64) {
    refused_row(rt, name, Inverse, limit, FALSE_NORTHING, Refusal::TooFar);
    refused_row(
        rt,
        "next",
        Inverse,
        next,
        FALSE_NORTHING,
        Refusal::OutOfLimits,
    );
    refused_row(rt, name, Inverse, FALSE_EASTING, limit, Refusal::TooFar);
    refused_row(
        rt,
        "next",
        Inverse,
        FALSE_EASTING,
        next,
        Refusal::OutOfLimits,
    );
}

pub(crate) fn plane_limits(rt: &impl Print) {
    plane_limit(rt, "50000000", 50_000_000.0, 50_000_000.00000001);
    plane_limit(rt, "-50000000", -50_000_000.0, -50_000_000.00000001);
}

// −0.0 is 0, and so is the least double.
pub(crate) fn zeros(rt: &impl Print) {
    let origin = Ok((0.0, 0.0));
    row(rt, "-0.0", Forward, SPHERE, -0.0, -0.0, origin);
    let east = Ok((8_485_281.38, 0.0));
    row(rt, "-0.0", Forward, SPHERE, -0.0, 90.0, east);
    row(rt, "-0.0", Inverse, SPHERE, -0.0, -0.0, origin);
    row(rt, "least", Forward, SPHERE, 5e-324, -5e-324, origin);
    row(rt, "least", Inverse, SPHERE, 5e-324, -5e-324, origin);
}

// Halves go away from zero: 1/256 degree is 14,063 mas, and 0.125 m is 13 cm.
pub(crate) fn halves(rt: &impl Print) {
    let degree = 0.00390625;
    let metres = Ok((-409.07, 409.07));
    row(rt, "1/256 degree", Forward, SPHERE, degree, -degree, metres);
    let degrees = Ok((-0.000001111111111111111, 0.000001111111111111111));
    row(rt, "1/8 m", Inverse, SPHERE, 0.125, -0.125, degrees);
}

// In each place, and in both.
fn not_finite(rt: &impl Print, x: f64) {
    refused_row(rt, "latitude", Forward, x, LON0, Refusal::NotFinite);
    refused_row(rt, "longitude", Forward, LAT0, x, Refusal::NotFinite);
    refused_row(rt, "both", Forward, x, x, Refusal::NotFinite);
    refused_row(rt, "first", Inverse, x, FALSE_NORTHING, Refusal::NotFinite);
    refused_row(rt, "second", Inverse, FALSE_EASTING, x, Refusal::NotFinite);
    refused_row(rt, "both", Inverse, x, x, Refusal::NotFinite);
}

pub(crate) fn not_numbers(rt: &impl Print) {
    for x in [f64::NAN, f64::INFINITY, f64::NEG_INFINITY] {
        not_finite(rt, x);
    }
}

// Sets with each field wrong alone, and with all: the first is told, though the coordinates are refused too.
fn bad_sets(rt: &impl Print, direction: Direction, far: f64, x: f64) {
    for (refusal, p) in ONE_WRONG {
        row(rt, "bad field", direction, p, far, x, Err(refusal));
    }
    let right = Err(Refusal::BadA);
    row(rt, "bad set", direction, ALL_WRONG, far, x, right);
}

// 2 is tested before 3, and the set before both.
fn order_of(rt: &impl Print, direction: Direction, far: f64, x: f64) {
    refused_row(rt, "beyond", direction, far, x, Refusal::NotFinite);
    refused_row(rt, "beyond", direction, x, far, Refusal::NotFinite);
    bad_sets(rt, direction, far, x);
}

pub(crate) fn order(rt: &impl Print) {
    order_of(rt, Forward, 91.0, f64::NAN);
    order_of(rt, Forward, -181.0, f64::INFINITY);
    order_of(rt, Inverse, 50_000_001.0, f64::NAN);
    order_of(rt, Inverse, -50_000_001.0, f64::INFINITY);
}

// The greatest double, and the antipode.
pub(crate) fn too_far(rt: &impl Print) {
    let far = 1.7976931348623157e308;
    refused_row(rt, "far", Forward, far, LON0, Refusal::OutOfLimits);
    refused_row(
        rt,
        "far",
        Inverse,
        FALSE_EASTING,
        -far,
        Refusal::OutOfLimits,
    );
    refused_row(rt, "antipode", Forward, -52.0, -170.0, Refusal::TooFar);
}

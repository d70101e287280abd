// Coordinates out of their limits, for ETRS-LAEA: refused, never wrapped.
use crate::rows::Question::{self, Forward, Inverse};
use crate::rows::refused_row;
use parameters::Parameters;
use units::refusals::Refusal;

// The centre and the false origin.
const LAT0: i64 = 187_200_000;

const LON0: i64 = 36_000_000;

pub(crate) const FALSE_EASTING: i64 = 432_100_000;

pub(crate) const FALSE_NORTHING: i64 = 321_000_000;

fn refused(rt: &impl Print, question: Question) {
    let p = Parameters::ETRS_LAEA;
    refused_row(rt, "ETRS-LAEA", p, question, Refusal::OutOfLimits);
}

// Each coordinate in turn.
fn bad_position(rt: &impl Print, lat: i64, lon: i64) {
    refused(rt, Forward(lat, LON0));
    refused(rt, Forward(LAT0, lon));
}

fn bad_plane(rt: &impl Print, z: i64) {
    refused(rt, Inverse(z, FALSE_NORTHING));
    refused(rt, Inverse(FALSE_EASTING, z));
}

// The least and the greatest i64 in every coordinate.
pub(crate) fn extremes(rt: &impl Print) {
    bad_position(rt, i64::MIN, i64::MIN);
    bad_position(rt, i64::MAX, i64::MAX);
    bad_plane(rt, i64::MIN);
    bad_plane(rt, i64::MAX);
}

// The first value that is out, on each side of each limit.
pub(crate) fn edges(rt: &impl Print) {
    bad_position(rt, -324_000_001, -648_000_001);
    bad_position(rt, 324_000_001, 648_000_001);
    bad_plane(rt, -5_000_000_001);
    bad_plane(rt, 5_000_000_001);
}

// The centre goes to the false origin and comes back, to the last unit.
use crate::rows::Question::Forward;
use crate::rows::{row, there_and_back};
use latitudes::Geodetic;
use parameters::Parameters;

// A longitude that is no centre's.
const ELSEWHERE: i64 = 123_456_789;

// At a pole every longitude is the centre.
fn at_pole(rt: &impl Print, name: &str, p: Parameters) {
    let q = Forward(p.lat0.0, ELSEWHERE);
    let origin = Ok((p.false_easting, p.false_northing));
    row(rt, name, p, q, origin, 0);
}

pub(crate) fn off_the_poles(rt: &impl Print) {
    there_and_back(rt, "oblique centre", Parameters::ETRS_LAEA);
    let southern = Parameters {
        a: 637_813_700,
        e2: 6_694_380,
        lat0: Geodetic(-305_999_999),
        lon0: 648_000_000,
        false_easting: -1_000_000_000,
        false_northing: 1_000_000_000,
    };
    there_and_back(rt, "southern oblique centre", southern);
    let equatorial = Parameters {
        a: 637_813_700,
        e2: 6_694_380,
        lat0: Geodetic(0),
        lon0: -647_999_999,
        false_easting: 123_456_789,
        false_northing: -987_654_321,
    };
    there_and_back(rt, "equatorial centre", equatorial);
}

pub(crate) fn polar(rt: &impl Print) {
    let north = Parameters {
        a: 637_838_800,
        e2: 6_722_670,
        lat0: Geodetic(324_000_000),
        lon0: -360_000_000,
        false_easting: 200_000_000,
        false_northing: 300_000_000,
    };
    there_and_back(rt, "north polar centre", north);
    at_pole(rt, "north pole at another longitude", north);
    let south = Parameters {
        a: 637_838_800,
        e2: 6_722_670,
        lat0: Geodetic(-324_000_000),
        lon0: 252_000_000,
        false_easting: 200_000_000,
        false_northing: -300_000_000,
    };
    there_and_back(rt, "south polar centre", south);
    at_pole(rt, "south pole at another longitude", south);
}

// The worked examples of documents 001 and 004, within 1 m and within 2 m, and the marked case of the sphere.
use crate::rows::Question::{Forward, Inverse};
use crate::rows::{ground_row, row};
use latitudes::Geodetic;
use parameters::Parameters;
use sine_table::SineTable;
use trig::cosine;

// In cm.
const ONE_METRE: u64 = 100;

const TWO_METRES: u64 = 200;

pub(crate) fn document_001(rt: &impl Print, t: &SineTable) {
    let name = "document 001";
    let p = Parameters::ETRS_LAEA;
    let lat = 180_000_000;
    let lon = 18_000_000;
    let easting = 396_279_945;
    let northing = 299_971_885;
    let q = Forward(lat, lon);
    row(rt, name, p, q, Ok((easting, northing)), ONE_METRE);
    let back = Inverse(easting, northing);
    let right = Ok((lat, lon));
    ground_row(rt, name, p, back, right, cosine(t, lat), ONE_METRE);
}

// R = 3 is read as 3,000 km.
pub(crate) fn document_004_sphere(rt: &impl Print, t: &SineTable) {
    let name = "document 004 sphere";
    let p = Parameters {
        a: 300_000_000,
        e2: 0,
        lat0: Geodetic(144_000_000),
        lon0: -360_000_000,
        false_easting: 0,
        false_northing: 0,
    };
    let easting = -423_393_030;
    let northing = 402_577_750;
    let q = Forward(-72_000_000, 360_000_000);
    row(rt, name, p, q, Ok((easting, northing)), TWO_METRES);
    let back = Inverse(easting, northing);
    let lat = -71_999_997;
    let right = Ok((lat, 360_000_001));
    ground_row(rt, name, p, back, right, cosine(t, lat), TWO_METRES);
}

pub(crate) fn document_004_oblique(rt: &impl Print, t: &SineTable) {
    let name = "document 004 oblique";
    let p = Parameters {
        a: 637_820_640,
        e2: 6_768_660,
        lat0: Geodetic(144_000_000),
        lon0: -360_000_000,
        false_easting: 0,
        false_northing: 0,
    };
    let lon = -396_000_000;
    let q = Forward(108_000_000, lon);
    row(rt, name, p, q, Ok((-96_593_211, -105_681_493)), TWO_METRES);
    let back = Inverse(-96_593_210, -105_681_490);
    let lat = 108_000_001;
    let right = Ok((lat, lon));
    ground_row(rt, name, p, back, right, cosine(t, lat), TWO_METRES);
}

// Its polar set, which has no false origin.
pub(crate) const POLAR: Parameters = Parameters {
    a: 637_838_800,
    e2: 6_722_670,
    lat0: Geodetic(324_000_000),
    lon0: -360_000_000,
    false_easting: 0,
    false_northing: 0,
};

pub(crate) fn document_004_polar(rt: &impl Print, t: &SineTable) {
    let name = "document 004 polar";
    let q = Forward(288_000_000, 18_000_000);
    row(
        rt,
        name,
        POLAR,
        q,
        Ok((107_745_969, 28_870_445)),
        TWO_METRES,
    );
    let back = Inverse(107_745_970, 28_870_450);
    let lat = 287_999_999;
    let right = Ok((lat, 18_000_008));
    ground_row(rt, name, POLAR, back, right, cosine(t, lat), TWO_METRES);
}

// Longitudes of −180 and of 180 degrees are alike.
pub(crate) fn exact_rows(rt: &impl Print) {
    let sphere = Parameters {
        a: 600_000_000,
        e2: 0,
        lat0: Geodetic(0),
        lon0: 0,
        false_easting: 0,
        false_northing: 0,
    };
    let q = Forward(0, 324_000_000);
    row(rt, "marked sphere", sphere, q, Ok((848_528_138, 0)), 0);
    let p = Parameters::ETRS_LAEA;
    let lat = 288_000_000;
    let right = Ok((453_232_967, 839_046_361));
    row(
        rt,
        "180 degrees east",
        p,
        Forward(lat, 648_000_000),
        right,
        0,
    );
    row(
        rt,
        "180 degrees west",
        p,
        Forward(lat, -648_000_000),
        right,
        0,
    );
}

// The sets that are run, besides ETRS-LAEA.
use latitudes::Geodetic;
use parameters::Parameters;
use units::refusals::Refusal;

// About (0, 0), with no false origin.
pub(crate) const SPHERE: Parameters = Parameters {
    a: 600_000_000,
    e2: 0,
    lat0: Geodetic(0),
    lon0: 0,
    false_easting: 0,
    false_northing: 0,
};

// No field is accepted.
pub(crate) const ALL_WRONG: Parameters = Parameters {
    a: 99_999_999,
    e2: 10_000_001,
    lat0: Geodetic(306_000_001),
    lon0: -648_000_000,
    false_easting: 1_000_000_001,
    false_northing: -1_000_000_001,
};

// ETRS-LAEA with each field wrong in turn, and what that is refused by.
pub(crate) const ONE_WRONG: [(Refusal, Parameters); 6] = [
    (
        Refusal::BadA,
        Parameters {
            a: ALL_WRONG.a,
            ..Parameters::ETRS_LAEA
        },
    ),
    (
        Refusal::BadE2,
        Parameters {
            e2: ALL_WRONG.e2,
            ..Parameters::ETRS_LAEA
        },
    ),
    (
        Refusal::BadLat0,
        Parameters {
            lat0: Geodetic(ALL_WRONG.lat0.0),
            ..Parameters::ETRS_LAEA
        },
    ),
    (
        Refusal::BadLon0,
        Parameters {
            lon0: ALL_WRONG.lon0,
            ..Parameters::ETRS_LAEA
        },
    ),
    (
        Refusal::BadFalseEasting,
        Parameters {
            false_easting: ALL_WRONG.false_easting,
            ..Parameters::ETRS_LAEA
        },
    ),
    (
        Refusal::BadFalseNorthing,
        Parameters {
            false_northing: ALL_WRONG.false_northing,
            ..Parameters::ETRS_LAEA
        },
    ),
];

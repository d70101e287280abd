// The sets that are run: every aspect, sphere and ellipsoid, with the limits of document 01's table among them.
use crate::trips::row;
use latitudes::Geodetic;
use parameters::Parameters;
use sine_table::SineTable;

// A set by its numbers, with one number for both false coordinates.
fn set(a: i64, e2: i64, lat0: i64, lon0: i64, false_origin: i64) -> Parameters {
    Parameters {
        a,
        e2,
        lat0: Geodetic(lat0),
        lon0,
        false_easting: false_origin,
        false_northing: false_origin,
    }
}

pub(crate) fn oblique(rt: &impl Print, t: &SineTable) {
    row(rt, t, "ETRS-LAEA", Parameters::etrs_laea());
    row(
        rt,
        t,
        "oblique sphere",
        set(600_000_000, 0, 144_000_000, -360_000_000, 0),
    );
    row(
        rt,
        t,
        "85 degrees north",
        set(
            100_000_000,
            6_722_670,
            306_000_000,
            -647_999_999,
            1_000_000_000,
        ),
    );
    row(
        rt,
        t,
        "85 degrees south",
        set(
            1_000_000_000,
            10_000_000,
            -306_000_000,
            648_000_000,
            -1_000_000_000,
        ),
    );
}

pub(crate) fn equatorial(rt: &impl Print, t: &SineTable) {
    row(
        rt,
        t,
        "equatorial ellipsoid",
        set(637_813_700, 6_694_380, 0, 0, 0),
    );
    row(
        rt,
        t,
        "equatorial sphere",
        set(100_000_000, 0, 0, 648_000_000, 0),
    );
}

pub(crate) fn north_polar(rt: &impl Print, t: &SineTable) {
    row(
        rt,
        t,
        "north polar ellipsoid",
        set(
            637_838_800,
            6_722_670,
            324_000_000,
            -360_000_000,
            200_000_000,
        ),
    );
    row(
        rt,
        t,
        "north polar sphere",
        set(600_000_000, 0, 324_000_000, 0, 0),
    );
}

pub(crate) fn south_polar(rt: &impl Print, t: &SineTable) {
    row(
        rt,
        t,
        "south polar ellipsoid",
        set(637_813_700, 10_000_000, -324_000_000, 0, 600_000_000),
    );
    row(
        rt,
        t,
        "south polar sphere",
        set(100_000_000, 0, -324_000_000, 324_000_000, 0),
    );
}

// ETRS-LAEA with one field at each of its limits, one past it and far beyond it, and with all pairs of fields past a
// limit: refused by the first field that is out.
use crate::rows::Question::{Forward, Inverse};
use crate::rows::{refused_row, there_and_back};
use latitudes::Geodetic;
use parameters::Parameters;
use printing::text_line;
use std::fmt;
use units::refusals::Refusal;

// A field of a set.
#[derive(Clone, Copy)]
enum Field {
    A,
    E2,
    Lat0,
    Lon0,
    FalseEasting,
    FalseNorthing,
}

// In the order of document 01's table.
const FIELDS: [Field; 6] = [
    Field::A,
    Field::E2,
    Field::Lat0,
    Field::Lon0,
    Field::FalseEasting,
    Field::FalseNorthing,
];

const NAMES: &str = "a
e2
lat0
lon0
FE
FN";

impl Field {
    // What a set is refused by in which this is the first field that is out.
    fn refusal(self) -> Refusal {
        match self {
            Field::A => Refusal::BadA,
            Field::E2 => Refusal::BadE2,
            Field::Lat0 => Refusal::BadLat0,
            Field::Lon0 => Refusal::BadLon0,
            Field::FalseEasting => Refusal::BadFalseEasting,
            Field::FalseNorthing => Refusal::BadFalseNorthing,
        }
    }

    // A value one past a limit.
    fn past(self) -> i64 {
        match self {
            Field::A => 99_999_999,
            Field::E2 => 10_000_001,
            Field::Lat0 => -306_000_001,
            Field::Lon0 => 648_000_001,
            Field::FalseEasting => -1_000_000_001,
            Field::FalseNorthing => 1_000_000_001,
        }
    }

    // The set with another value in this field.
    fn changed(self, p: Parameters, value: i64) -> Parameters {
        match self {
            Field::A => Parameters { a: value, ..p },
            Field::E2 => Parameters { e2: value, ..p },
            Field::Lat0 => Parameters {
                lat0: Geodetic(value),
                ..p
            },
            Field::Lon0 => Parameters { lon0: value, ..p },
            Field::FalseEasting => Parameters {
                false_easting: value,
                ..p
            },
            Field::FalseNorthing => Parameters {
                false_northing: value,
                ..p
            },
        }
    }
}

impl fmt::Display for Field {
    fn fmt<W: fmt::Write>(&self, f: &mut fmt::Formatter<W>) -> fmt::Result {
        f.write_str(text_line(NAMES, *self as usize))
    }
}

const BILLION: i64 = 1_000_000_000;

const PAST_BILLION: i64 = 1_000_000_001;

// What stands before the rows of a set whose fields are told above them.
const OF_A_SET: &str = "   ";

// The set with a new number in one field; it is told.
fn changed(rt: &impl Print, p: Parameters, field: Field, z: i64) -> Parameters {
    let _ = println!(rt; "{field} = {z}");
    field.changed(p, z)
}

// The centre of ETRS-LAEA and its false origin.
fn refused(rt: &impl Print, p: Parameters, refusal: Refusal) {
    let q = Forward(187_200_000, 36_000_000);
    refused_row(rt, OF_A_SET, p, q, refusal);
    let q = Inverse(432_100_000, 321_000_000);
    refused_row(rt, OF_A_SET, p, q, refusal);
}

fn bad(rt: &impl Print, field: Field, z: i64) {
    let p = changed(rt, Parameters::ETRS_LAEA, field, z);
    refused(rt, p, field.refusal());
}

// Accepted: the set's centre goes to its false origin, and back.
fn good(rt: &impl Print, field: Field, z: i64) {
    let p = changed(rt, Parameters::ETRS_LAEA, field, z);
    there_and_back(rt, OF_A_SET, p);
}

// In every field.
pub(crate) fn extremes(rt: &impl Print) {
    for z in [i64::MIN, i64::MAX] {
        for field in FIELDS {
            bad(rt, field, z);
        }
    }
}

// The limits of a span, and the numbers next to it.
fn span(rt: &impl Print, field: Field, before: i64, least: i64, most: i64, after: i64) {
    bad(rt, field, before);
    good(rt, field, least);
    good(rt, field, most);
    bad(rt, field, after);
}

// A false easting or northing.
fn false_span(rt: &impl Print, field: Field) {
    span(rt, field, -PAST_BILLION, -BILLION, BILLION, PAST_BILLION);
}

pub(crate) fn limits(rt: &impl Print) {
    span(rt, Field::A, 99_999_999, 100_000_000, BILLION, PAST_BILLION);
    span(rt, Field::E2, -1, 0, 10_000_000, 10_000_001);
    let lat0 = Field::Lat0;
    span(
        rt,
        lat0,
        -306_000_001,
        -306_000_000,
        306_000_000,
        306_000_001,
    );
    bad(rt, lat0, -324_000_001);
    good(rt, lat0, -324_000_000);
    bad(rt, lat0, -323_999_999);
    bad(rt, lat0, 323_999_999);
    good(rt, lat0, 324_000_000);
    bad(rt, lat0, 324_000_001);
    let lon0 = Field::Lon0;
    span(
        rt,
        lon0,
        -648_000_000,
        -647_999_999,
        648_000_000,
        648_000_001,
    );
    false_span(rt, Field::FalseEasting);
    false_span(rt, Field::FalseNorthing);
}

// Two fields past a limit.
pub(crate) fn pairs(rt: &impl Print) {
    for (place, first) in FIELDS.into_iter().enumerate() {
        let p = Parameters::ETRS_LAEA;
        for second in FIELDS.into_iter().skip(place + 1) {
            let p = changed(rt, p, first, first.past());
            let p = changed(rt, p, second, second.past());
            refused(rt, p, first.refusal());
        }
    }
}

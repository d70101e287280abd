// Document 001's reverse series beside the latitude of the inverse steps. Over every authalic latitude from −90° to 90°
// the two are at most 2 mas apart for these three e2: both leave out e^8, less than 1 mas here, and both are rounded.
ghost use Rattle.std.specs.Prelude.{◌≡◌, true, ◌≤◌, leb, nat_abs};
ghost use Rattle.units.specs.Units.{right_angle};
ghost use Rattle.parameters.specs.ParameterSet.{accepted_e2};
ghost use Rattle.geodetic_search.specs.Reverse.{geodetic};
ghost use Rattle.constants.specs.Derived.{series_of};
ghost use Rattle.vectors.specs.InnerSeries.{series_gap, most_mas};

use constants::constants_of;
use geodetic_search::to_geodetic;
use latitudes::{Authalic, Geodetic};
use parameters::Parameters;
use printing::verdict;
use reverse_series::latitude;
use sine_table::SineTable;
use units::LATITUDE_MOST;

// What the two may be apart, in mas.
const MOST: u64 = 2;

// The latitude of the inverse steps for an e2, whatever else is in the set.
fn steps(t: &SineTable, e2: i64, beta: Authalic) -> Geodetic
    requires { (accepted_e2 e2 ≡ true) × (nat_abs beta.0 ≤ right_angle) }
    ensures { result ≡ geodetic (series_of e2) beta }
{
    let k = constants_of(
        t,
        Parameters {
            a: 637_813_700,
            e2,
            lat0: Geodetic(0),
            lon0: 0,
            false_easting: 0,
            false_northing: 0,
        },
    );
    to_geodetic(t, k.series, beta)
}

fn row(rt: &impl Print, t: &SineTable, e2: i64, beta: Authalic) -> bool
    requires { (accepted_e2 e2 ≡ true) × (nat_abs beta.0 ≤ right_angle) }
    ensures { result ≡ leb (series_gap e2 beta) most_mas }
{
    let found = steps(t, e2, beta).0;
    let right = latitude(t, e2, beta).0;
    let off = found.abs_diff(right);
    let _ = print!(rt;
        "reverse series e2 {e2} beta {}: latitude {found}, series {right}, off by {off} mas, at most {MOST}",
        beta.0
    );
    verdict(rt, off <= MOST)
}

// In mas, and how many latitudes they divide the way from pole to pole by.
const TEN_DEGREES: i64 = 36_000_000;

const TENS: u64 = 19;

// Every 10°, from pole to pole.
fn tens(rt: &impl Print, t: &SineTable, e2: i64)
    requires { accepted_e2 e2 ≡ true }
{
    for k in 0..TENS {
        row(rt, t, e2, Authalic(TEN_DEGREES * k as i64 - LATITUDE_MOST));
    }
}

// β of document 001's example, and latitudes where the two are farthest apart for one of the ellipsoids.
const FARTHEST: [i64; 5] = [
    179_544_997,
    -280_532_365,
    241_201_930,
    -282_060_453,
    207_474_425,
];

fn ellipsoid(rt: &impl Print, t: &SineTable, e2: i64)
    requires { accepted_e2 e2 ≡ true }
{
    tens(rt, t, e2);
    for beta in FARTHEST {
        row(rt, t, e2, Authalic(beta));
    }
}

#[tactic(auto, unfolding(parameters::specs::ParameterSet::accepted_e2, units::specs::Spans::within))]
pub(crate) fn rows(rt: &impl Print, t: &SineTable) {
    ellipsoid(rt, t, 6_694_380);
    ellipsoid(rt, t, 10_000_000);
    ellipsoid(rt, t, 0);
}

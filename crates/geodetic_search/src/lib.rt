// The geodetic latitude of an authalic one, found by a search over all latitudes.
#![tactic(auto)]

ghost use Rattle.std.specs.Prelude.{true, ◌≡◌, ◌≤◌, nat_abs};
ghost use Rattle.std.proofs.Common.{lit<};
ghost use Rattle.integers.specs.Greatest.{greatest};
ghost use Rattle.units.specs.Units.{right_angle, half_turn};
ghost use Rattle.latitudes.specs.InnerSizes.{SmallSeries};
ghost use Rattle.geodetic_search.specs.Reverse.{not_above, geodetic};
ghost use Rattle.geodetic_search.specs.InnerSearch.{estimate_limit, settled_error};
ghost use Rattle.geodetic_search.specs.InnerThreshold.{not_above_threshold};

use integers::search::{Test, search, search_near};
use integers::{excess, near};
use latitudes::{Authalic, AuthalicSeries, Geodetic, SineSeries, is_safe, to_authalic};
use sine_table::SineTable;
use units::{HALF_TURN, LATITUDE_MOST};

// The latitudes whose β is not above the one given. They are counted in mas from the South Pole.
#[derive(Clone, Copy)]
struct NotAbove<'t> {
    t: &'t SineTable,
    series: AuthalicSeries,
    beta: Authalic,
    ghost small: { SmallSeries series },
    ghost beta_size: { nat_abs beta.0 ≤ right_angle },
}

impl Test for NotAbove<'_> {
    ghost most = { half_turn };

    ghost passes = { λ test. not_above test.series test.beta };

    fn most(&self) -> u64 {
        HALF_TURN
    }

    // Whether β of the latitude n mas from the South Pole is not above the one given.
    fn passes(&self, n: u64) -> bool {
        let lat = Geodetic(n as i64 - LATITUDE_MOST);
        to_authalic(self.t, self.series, lat).0 <= self.beta.0
    }

    ghost room = { lit< tt };

    ghost threshold = { λ test. not_above_threshold test.series test.small test.beta test.beta_size };
}

// One radian, in mas.
const RADIAN: i64 = 206_264_806;

// The series from β back to φ is counted in 64ths of a mas; its terms, products with a sine, are
// divided by the second.
const FINE: i64 = 64;

const FINE_DIVISOR: u64 = 64_000_000_000;

// The series reversed, up to the third power of k2.
fn reversed(k: AuthalicSeries) -> SineSeries
    requires { SmallSeries k }
{
    let square = FINE * k.k2 * k.k2 / RADIAN;
    let cube = square * k.k2 / RADIAN;
    let product = FINE * k.k2 * k.k4 / RADIAN;
    SineSeries {
        k2: FINE * k.k2 + product - cube / 2,
        k4: FINE * k.k4 - square,
        k6: FINE * k.k6 + 3 * cube / 2 - 3 * product,
    }
}

// A latitude that may be past a pole is counted from LIFT south of the Equator, so that it is not
// negative. The South Pole is then at LIFTED_POLE.
const LIFT: i64 = 400_000_000;

const LIFTED_POLE: u64 = 76_000_000;

// A latitude counted from the South Pole; one past a pole is taken for the pole.
fn count_from_pole(lat: i64) -> u64
    requires { nat_abs lat ≤ estimate_limit }
    ensures { result ≤ half_turn }
{
    let n = (lat + LIFT) as u64;
    excess(n, LIFTED_POLE).min(HALF_TURN)
}

// How far the three terms by lines at a latitude are at most from the three terms there and 1 mas further
// north.
fn settled_error(series: SineSeries) -> u64
    ensures { result ≡ settled_error series.k2 series.k4 series.k6 }
{
    series.terms_error() + series.weighted_sum(10, 20, 30)
}

impl NotAbove<'_> {
    // The geodetic latitude of β by the reversed series, mostly to the mas. Nothing rests on its
    // precision.
    fn estimate(&self) -> u64
        ensures { result ≤ half_turn }
    {
        let beta = self.beta.0;
        let terms = reversed(self.series).three_lines(self.t, beta);
        count_from_pole(beta + near(terms, FINE_DIVISOR))
    }

    // Whether the latitude n mas from the South Pole is known to be the greatest whose β is not above the one
    // given: the terms then round to φ − β both there and 1 mas further north.
    fn is_settled(&self, n: u64) -> bool
        requires { n ≤ half_turn }
        ensures { result ≡ true → greatest (not_above self.now.series self.now.beta) half_turn ≡ n }
    {
        let series = self.series.terms();
        let phi = n as i64 - LATITUDE_MOST;
        let about = series.three_lines(self.t, phi);
        is_safe(about, phi - self.beta.0, settled_error(series))
    }

    // The greatest latitude whose β is not above the one given. Where the estimate is settled, the search has
    // one latitude left.
    fn greatest(&self) -> u64
        ensures { result ≡ greatest (not_above self.now.series self.now.beta) half_turn }
    {
        let n = self.estimate();
        if self.is_settled(n) {
            return search(self, n, n);
        }
        search_near(self, n, 0)
    }
}

// The geodetic latitude of an authalic one: the greatest whose β is not above it.
pub fn to_geodetic(t: &SineTable, series: AuthalicSeries, beta: Authalic) -> Geodetic
    requires { SmallSeries series × (nat_abs beta.0 ≤ right_angle) }
    ensures { result ≡ geodetic series beta }
{
    let n = NotAbove { t, series, beta }.greatest();
    Geodetic(n as i64 - LATITUDE_MOST)
}

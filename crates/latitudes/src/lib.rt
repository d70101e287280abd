// Geodetic and authalic latitude in mas: two quantities, two types.
#![tactic(auto)]

ghost use Rattle.std.specs.Prelude.{◌≡◌, ◌≤◌, ◌^◌, ℤ, nat_abs, ◌-ℤ◌};
ghost use Rattle.units.specs.Units.{right_angle, full_turn};
ghost use Rattle.trig.specs.Sine.{sine as sineOf, cosine as cosineOf};
ghost use Rattle.latitudes.specs.Latitude.{three_terms, rounded, beta};
ghost use Rattle.latitudes.specs.InnerSizes.{SmallSeries, SmallTerms};
ghost use Rattle.latitudes.specs.InnerRounding.{weight_limit, weighted, terms_error, safe};

use integers::{magnitude, near};
use sine_table::SineTable;
use trig::{SineCosine, cosine, sine, sine_by_line, sine_by_minute, sine_cosine};
use units::{UNIT, UNIT_DIVISOR};

// A latitude of either kind.
pub trait Latitude: Copy {
    ghost mas_of: { Self → ℤ };

    // So many mas north of the Equator.
    fn mas(self) -> i64
        ensures { result ≡ mas_of self };

    fn cosine(self, t: &SineTable) -> i64
        requires { nat_abs (mas_of self) ≤ right_angle }
        ensures { result ≡ cosineOf (mas_of self) }
    {
        cosine(t, self.mas())
    }

    // Its sine and cosine at once.
    fn sine_cosine(self, t: &SineTable) -> SineCosine
        ensures { (result.sine ≡ sineOf (mas_of self)) × (result.cosine ≡ cosineOf (mas_of self)) }
    {
        sine_cosine(t, self.mas())
    }
}

// The latitude on the ellipsoid.
#[derive(Clone, Copy, Debug, PartialEq, Eq)]
pub struct Geodetic(pub i64);

// The latitude on the sphere of equal area. Only `to_authalic` makes one from a geodetic latitude.
#[derive(Clone, Copy, Debug, PartialEq, Eq)]
pub struct Authalic(pub i64);

impl Latitude for Geodetic {
    ghost mas_of = { λ phi. phi.0 };

    fn mas(self) -> i64 {
        let Geodetic(phi) = self;
        phi
    }
}

impl Latitude for Authalic {
    ghost mas_of = { λ beta. beta.0 };

    fn mas(self) -> i64 {
        let Authalic(beta) = self;
        beta
    }
}

// A sine by a line is at most LINE_ERROR from the sine, and one by the minute at most MINUTE_ERROR.
const LINE_ERROR: u64 = 12;

const MINUTE_ERROR: u64 = 295_000;

// The series k2·sine(2x) − k4·sine(4x) + k6·sine(6x), with coefficients that keep it within 64 bits.
#[derive(Clone, Copy, Debug)]
pub struct SineSeries {
    pub k2: i64,
    pub k4: i64,
    pub k6: i64,
    pub ghost small: { SmallTerms k2 k4 k6 },
}

impl SineSeries {
    // Its three terms at x, not rounded.
    pub fn three_terms(self, t: &SineTable, x: i64) -> i64
        requires { nat_abs x ≤ right_angle }
        ensures { result ≡ three_terms self.k2 self.k4 self.k6 x }
    {
        let s2 = sine(t, 2 * x);
        let s4 = sine(t, 4 * x);
        let s6 = sine(t, 6 * x);
        self.k2 * s2 - self.k4 * s4 + self.k6 * s6
    }

    // The same sum by quicker sines: within `terms_error` of it.
    pub fn three_lines(self, t: &SineTable, x: i64) -> i64
        requires { nat_abs x ≤ right_angle }
        ensures { nat_abs (result -ℤ three_terms self.k2 self.k4 self.k6 x) ≤ terms_error self.k2 self.k4 self.k6 }
    {
        let two = sine_by_line(t, 2 * x);
        let four = sine_by_line(t, 4 * x);
        let six = sine_by_minute(t, 6 * x);
        self.k2 * two - self.k4 * four + self.k6 * six
    }

    // a·|k2| + b·|k4| + c·|k6|.
    pub fn weighted_sum(self, a: u64, b: u64, c: u64) -> u64
        requires { (a ≤ weight_limit) × (b ≤ weight_limit) × (c ≤ weight_limit) }
        ensures { result ≡ weighted a b c self.k2 self.k4 self.k6 }
    {
        let two = magnitude(self.k2);
        let four = magnitude(self.k4);
        let six = magnitude(self.k6);
        a * two + b * four + c * six
    }

    // How far `three_lines` is from `three_terms` at most.
    pub fn terms_error(self) -> u64
        ensures { result ≡ terms_error self.k2 self.k4 self.k6 }
    {
        self.weighted_sum(LINE_ERROR, LINE_ERROR, MINUTE_ERROR)
    }
}

// The coefficients k2, k4, k6 of the authalic latitude's series, in mas. How small they are is no part of the type, since
// `series_of` is defined for every e2: functions that need it require `SmallSeries`.
#[derive(Clone, Copy, Debug, PartialEq, Eq)]
pub struct AuthalicSeries {
    pub k2: i64,
    pub k4: i64,
    pub k6: i64,
}

impl AuthalicSeries {
    // The series with these coefficients.
    pub fn terms(self) -> SineSeries
        requires { SmallSeries self }
        ensures { (result.k2 ≡ self.k2) × (result.k4 ≡ self.k4) × (result.k6 ≡ self.k6) }
    {
        SineSeries {
            k2: self.k2,
            k4: self.k4,
            k6: self.k6,
        }
    }
}

const HALF_UNIT: u64 = 500_000_000;

// Whether y is near(n/U) for every n within `error` of `about`.
pub fn is_safe(about: i64, y: i64, error: u64) -> bool
    requires { (nat_abs about ≤ 2 ^ 62) × (nat_abs y ≤ full_turn) × (error ≤ 2 ^ 62) }
    ensures { result ≡ safe about y error }
{
    magnitude(about - y * UNIT) + error < HALF_UNIT
}

// φ − β: the three terms of the series with one rounding. The quicker sines settle nearly every one.
fn correction(t: &SineTable, k: AuthalicSeries, lat: Geodetic) -> i64
    requires { SmallSeries k × (nat_abs lat.0 ≤ right_angle) }
    ensures { result ≡ rounded k lat }
{
    let phi = lat.0;
    let series = k.terms();
    let about = series.three_lines(t, phi);
    let y = near(about, UNIT_DIVISOR);
    if is_safe(about, y, series.terms_error()) {
        return y;
    }
    near(series.three_terms(t, phi), UNIT_DIVISOR)
}

// β of a geodetic latitude.
pub fn to_authalic(t: &SineTable, k: AuthalicSeries, lat: Geodetic) -> Authalic
    requires { SmallSeries k × (nat_abs lat.0 ≤ right_angle) }
    ensures { result ≡ beta k lat }
{
    Authalic(lat.0 - correction(t, k, lat))
}

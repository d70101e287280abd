// Document 001's reverse series, for a program to compare with the latitude of the inverse steps.
#![tactic(auto)]

ghost use Rattle.std.specs.Prelude.{◌≡◌, ◌<◌, ◌≤◌, nat_abs, ◌+ℤ◌, ◌*ℤ◌};
ghost use Rattle.integers.specs.Near.{near as nearOf};
ghost use Rattle.units.specs.Units.{right_angle};
ghost use Rattle.constants.specs.Derived.{to_mas};
ghost use Rattle.reverse_series.specs.InnerSeries.{coefficients_of, SmallCoefficients, series, reversed};

use billionths::product;
use integers::near;
use latitudes::{Authalic, Geodetic};
use sine_table::SineTable;
use trig::sine;
use units::{UNIT, UNIT_DIVISOR};

// One radian, in mas.
const RADIAN: i64 = 206_264_806;

// The coefficients of sin 2β, sin 4β and sin 6β, in mas.
#[derive(Clone, Copy, Debug, PartialEq, Eq)]
pub struct Coefficients {
    pub two: i64,
    pub four: i64,
    pub six: i64,
}

// near(n·x/d): the term n/d of a power x of e.
fn term(n: i64, x: i64, d: u64) -> i64
    requires { (nat_abs (n *ℤ x) ≤ 10_000_000) × (0 < d) × (d ≤ 50_000) }
    ensures { (result ≡ nearOf (n *ℤ x) d) × (nat_abs result ≤ 11_000_000) }
{
    near(n * x, d)
}

// A sum of terms in mas.
fn in_mas(a: i64, b: i64, c: i64) -> i64
    requires { (nat_abs a ≤ 11_000_000) × (nat_abs b ≤ 11_000_000) × (nat_abs c ≤ 11_000_000) }
    ensures { (result ≡ to_mas (a +ℤ b +ℤ c)) × (nat_abs result ≤ 10_000_000) }
{
    product(a + b + c, RADIAN)
}

// The coefficients for an e2.
fn coefficients_of(e2: i64) -> Coefficients
    requires { nat_abs e2 ≤ 10_000_000 }
    ensures { (result ≡ coefficients_of e2) × SmallCoefficients result }
{
    let e4 = product(e2, e2);
    let e6 = product(e4, e2);
    Coefficients {
        two: in_mas(near(e2, 3), term(31, e4, 180), term(517, e6, 5_040)),
        four: in_mas(term(23, e4, 360), term(251, e6, 3_780), 0),
        six: in_mas(term(761, e6, 45_360), 0, 0),
    }
}

// The series with one rounding.
fn sum(t: &SineTable, k: Coefficients, beta: i64) -> i64
    requires { SmallCoefficients k × (nat_abs beta ≤ right_angle) }
    ensures { result ≡ series k beta }
{
    let s2 = sine(t, 2 * beta);
    let s4 = sine(t, 4 * beta);
    let s6 = sine(t, 6 * beta);
    near(
        UNIT * beta + k.two * s2 + k.four * s4 + k.six * s6,
        UNIT_DIVISOR,
    )
}

// The geodetic latitude of an authalic one by the series.
pub fn latitude(t: &SineTable, e2: i64, beta: Authalic) -> Geodetic
    requires { (nat_abs e2 ≤ 10_000_000) × (nat_abs beta.0 ≤ right_angle) }
    ensures { result ≡ reversed e2 beta }
{
    Geodetic(sum(t, coefficients_of(e2), beta.0))
}

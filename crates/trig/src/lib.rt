// Sine and cosine of documents 01 and 02, g), on whole numbers: angles in milliarcseconds (mas), sines in
// billionths. Every function takes the table lent: see SineTable::new.
#![tactic(auto)]

ghost use Rattle.std.specs.Prelude.{◌≡◌, ◌+◌, ◌-◌, ◌*◌, ◌/◌, ◌<◌, ◌≤◌, ◌^◌, nat_abs, ◌-ℤ◌};
ghost use Rattle.sine_table.specs.Table.{entry};
ghost use Rattle.units.specs.Units.{unit, minute, right_angle};
ghost use Rattle.trig.specs.Sine.{quarter_minutes, first_quarter, sine, cosine};
ghost use Rattle.trig.specs.InnerCorrection.{most_rise, most_product, whole_correction, rise_of};
ghost use Rattle.trig.specs.InnerFolding.{Folds};
ghost use Rattle.trig.specs.InnerLines.{line_error, minute_error};

use integers::{excess, magnitude, signed};
use sine_table::SineTable;
use units::{FULL_TURN, HALF_TURN, LATITUDE_MOST, MINUTE, RIGHT_ANGLE, UNIT_DIVISOR};

// The minutes from 0 to 90°.
pub const QUARTER_MINUTES: u64 = 5_400;

// T[k].
pub fn minute_sine(t: &SineTable, k: u64) -> u64
    requires { k ≤ quarter_minutes }
    ensures { result ≡ entry k }
{
    t.sines[k as usize] as u64
}

// T[k+1] − T[k].
#[tactic(auto, using(sine_table::proofs::Laws::rises), unfolding(crate::specs::InnerCorrection::rise_of))]
pub fn rise(t: &SineTable, k: u64) -> u64
    requires { k < quarter_minutes }
    ensures { result ≡ rise_of k }
{
    minute_sine(t, k + 1) - minute_sine(t, k)
}

// Between two minutes the sine lies above the straight line by T[k]·84,616·f·(1 − f)/(2·10^12), document
// 02, g). In 60,000ths that is T[k]·r·(60,000 − r)·84,616/(2·10^12·60,000). Divided by 8, the last two are
// CURVE and 15·10^15, which is PART times REST: the division goes in two steps, so that nothing leaves 64
// bits.
const CURVE: u64 = 10_577;

const PART: u64 = 32_768;

const REST: u64 = 457_763_671_875;

// That correction in 60,000ths, rounded down. `product` is r·(60,000 − r).
#[tactic(auto, using(crate::proofs::Fraction::two_steps), unfolding(crate::specs::InnerCorrection::whole_correction))]
fn correction(low: u64, product: u64) -> u64
    requires { (low ≤ unit) × (product ≤ most_product) }
    ensures { result ≡ whole_correction low product }
{
    let n = low * product;
    (n / PART * CURVE + n % PART * CURVE / PART) / REST
}

// Added before a division by a minute, so that it gives the nearest whole number.
const HALF_MINUTE: u64 = 30_000;

// The sine r mas past a minute, from T[k], T[k+1] − T[k] and r·(60,000 − r). It is never above T[k+1]
// (AtMostNext), so the two need not be compared.
#[tactic(auto, using(crate::proofs::Fraction::correction_small))]
fn between(low: u64, rise: u64, r: u64, product: u64) -> u64
    requires { (low ≤ unit) × (rise ≤ most_rise) × (r ≤ minute) × (product ≤ most_product) }
    ensures { result ≡ low + (rise * r + 30_000 + whole_correction low product) / minute }
{
    low + (rise * r + HALF_MINUTE + correction(low, product)) / MINUTE
}

// The sine of an angle from 0 to 90°.
#[tactic(auto, using(sine_table::proofs::Laws::entry_at_most, crate::proofs::Fraction::rise_small, crate::proofs::Fraction::product_small))]
pub fn first_quarter(t: &SineTable, theta: u64) -> u64
    requires { theta ≤ right_angle }
    ensures { result ≡ first_quarter theta }
{
    let k = theta / MINUTE;
    let r = theta % MINUTE;
    let low = minute_sine(t, k);
    if r == 0 {
        return low;
    }
    between(low, rise(t, k), r, r * (MINUTE - r))
}

// The sine and the cosine of one angle from 0 to 90°.
#[derive(Clone, Copy, Debug, PartialEq, Eq)]
pub struct QuarterPair {
    pub sine: u64,
    pub cosine: u64,
}

// Those of the angle r mas past minute k. 90° less it is 60,000 − r mas past minute 5399 − k, so both have one
// product.
#[tactic(auto, using(sine_table::proofs::Laws::entry_at_most, crate::proofs::Fraction::rise_small, crate::proofs::Fraction::product_small))]
pub fn quarter_pair(t: &SineTable, k: u64, r: u64) -> QuarterPair
    requires { (k < quarter_minutes) × (r < minute) }
    ensures { (result.sine ≡ first_quarter (k * minute + r)) × (result.cosine ≡ first_quarter (right_angle - (k * minute + r))) }
{
    let before = QUARTER_MINUTES - 1 - k;
    let product = r * (MINUTE - r);
    QuarterPair {
        sine: between(minute_sine(t, k), rise(t, k), r, product),
        cosine: between(minute_sine(t, before), rise(t, before), MINUTE - r, product),
    }
}

// The angle from 0 to 90° that has the sine and the cosine of any angle, but for their signs.
#[derive(Clone, Copy, Debug, PartialEq, Eq)]
struct Fold {
    theta: u64,
    // the sine is negative
    below: bool,
    // the cosine is negative
    behind: bool,
}

// The angle folded at 180° and at 90°: each time the smaller of what it has passed and what is left.
#[tactic(auto, using(crate::proofs::Folding::folds))]
fn folded(theta: i64) -> Fold
    ensures { Folds theta result.theta result.below result.behind }
{
    let size = magnitude(theta) % FULL_TURN;
    let half = size - excess(size, FULL_TURN - size);
    Fold {
        theta: half - excess(half, HALF_TURN - half),
        below: (theta < 0) != (HALF_TURN < size),
        behind: RIGHT_ANGLE < half,
    }
}

// The sine of any angle.
#[tactic(auto, using(crate::proofs::Quarter::quarter_at_most))]
pub fn sine(t: &SineTable, theta: i64) -> i64
    ensures { result ≡ sine theta }
{
    let to = folded(theta);
    signed(to.below, first_quarter(t, to.theta))
}

// The cosine of any angle that leaves room to be taken from 90°.
#[tactic(auto, unfolding(crate::specs::Sine::cosine))]
pub fn cosine(t: &SineTable, theta: i64) -> i64
    requires { nat_abs theta < 2 ^ 62 }
    ensures { result ≡ cosine theta }
{
    sine(t, LATITUDE_MOST - theta)
}

// The sine and the cosine of one angle.
#[derive(Clone, Copy, Debug, PartialEq, Eq)]
pub struct SineCosine {
    pub sine: i64,
    pub cosine: i64,
}

// Those of an angle from 0 to 90°. 90° itself has no minute after it.
#[tactic(auto, using(crate::proofs::Quarter::quarter_zero, crate::proofs::Quarter::quarter_right))]
fn folded_pair(t: &SineTable, theta: u64) -> QuarterPair
    requires { theta ≤ right_angle }
    ensures { (result.sine ≡ first_quarter theta) × (result.cosine ≡ first_quarter (right_angle - theta)) }
{
    if theta == RIGHT_ANGLE {
        return QuarterPair {
            sine: UNIT_DIVISOR,
            cosine: 0,
        };
    }
    quarter_pair(t, theta / MINUTE, theta % MINUTE)
}

// Those of any angle.
#[tactic(auto, using(crate::proofs::Quarter::quarter_at_most))]
pub fn sine_cosine(t: &SineTable, theta: i64) -> SineCosine
    ensures { (result.sine ≡ sine theta) × (result.cosine ≡ cosine theta) }
{
    let to = folded(theta);
    let two = folded_pair(t, to.theta);
    SineCosine {
        sine: signed(to.below, two.sine),
        cosine: signed(to.behind, two.cosine),
    }
}

// The straight line between two minutes from 0 to 90°: not above the sine, and below it by line-error at most.
#[tactic(auto, using(crate::proofs::Fraction::near_line, crate::proofs::Fraction::rise_product, crate::proofs::Quarter::quarter_minute, sine_table::proofs::Laws::entry_at_most))]
fn quarter_line(t: &SineTable, theta: u64) -> u64
    requires { theta ≤ right_angle }
    ensures { (result ≤ first_quarter theta) × (first_quarter theta ≤ result + line_error) }
{
    let k = theta / MINUTE;
    let low = minute_sine(t, k);
    if k == QUARTER_MINUTES {
        return low;
    }
    low + rise(t, k) * (theta % MINUTE) / MINUTE
}

// The sine of any angle to within line-error, by the straight line.
#[tactic(auto, using(crate::proofs::Quarter::quarter_at_most))]
pub fn sine_by_line(t: &SineTable, theta: i64) -> i64
    ensures { nat_abs (result -ℤ sine theta) ≤ line_error }
{
    let to = folded(theta);
    signed(to.below, quarter_line(t, to.theta))
}

// The sine of any angle to within minute-error, by the whole minute before it.
#[tactic(auto, using(crate::proofs::Quarter::quarter_at_most, crate::proofs::Fraction::near_minute))]
pub fn sine_by_minute(t: &SineTable, theta: i64) -> i64
    ensures { nat_abs (result -ℤ sine theta) ≤ minute_error }
{
    let to = folded(theta);
    signed(to.below, minute_sine(t, to.theta / MINUTE))
}

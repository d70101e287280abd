// The angle of two numbers, document 01, "Sine and angle": found by a search over the angles from 0 to
// 90°. Every function takes the table lent: see SineTable::new.
#![tactic(auto)]

ghost use Rattle.std.specs.Prelude.{◌≡◌, ◌≤◌};
ghost use Rattle.std.proofs.Common.{lit<};
ghost use Rattle.units.specs.Units.{right_angle};
ghost use Rattle.trig.specs.Sine.{quarter_minutes};
ghost use Rattle.angles.specs.InnerEstimate.{whole_part, part_limit};
ghost use Rattle.angles.specs.Angle.{under, angle};
ghost use Rattle.angles.specs.InnerSearch.{angle_limit};
ghost use Rattle.angles.specs.InnerTrial.{Settles};
ghost use Rattle.angles.specs.InnerThreshold.{under_threshold};

use integers::excess;
use integers::search::{Test, search, search_near};
use sine_table::SineTable;
use trig::{QUARTER_MINUTES, first_quarter, minute_sine, quarter_pair, rise};
use units::{MINUTE, RIGHT_ANGLE};

// The angles whose sine times p is not above their cosine times q; p and q leave room in 64 bits for the products.
#[derive(Clone, Copy)]
struct Under<'t> {
    t: &'t SineTable,
    p: u64,
    q: u64,
    ghost p_size: { p ≤ angle_limit },
    ghost q_size: { q ≤ angle_limit },
}

impl Test for Under<'_> {
    ghost most = { right_angle };

    ghost passes = { λ test. under test.p test.q };

    fn most(&self) -> u64 {
        RIGHT_ANGLE
    }

    // Whether sine(θ)·p is not above cosine(θ)·q.
    #[tactic(auto, using(crate::proofs::Angles::product_small, crate::specs::InnerThreshold::under_is))]
    fn passes(&self, theta: u64) -> bool {
        first_quarter(self.t, theta) * self.p <= first_quarter(self.t, RIGHT_ANGLE - theta) * self.q
    }

    ghost room = { lit< tt };

    ghost threshold = { λ test. under_threshold test.p test.q };
}

// Tangents from 0 to 1 are counted in parts of 2^14.
const WHOLE: u64 = 16_384;

// The part x/2^14 of a.
fn part(a: u64, x: u64) -> u64
    requires { (a ≤ part_limit) × (x ≤ whole_part) }
    ensures { result ≤ a }
{
    a * x / WHOLE
}

// lower/upper in parts of 2^14.
fn ratio(lower: u64, upper: u64) -> u64
    requires { (lower ≤ upper) × (upper ≤ angle_limit) }
    ensures { result ≤ whole_part }
{
    lower * WHOLE / (upper + 1)
}

// The coefficients of x, x³ and x⁵ in x − x³/3 + x⁵/5, fitted to 0 to 45°, in 1,024ths of a minute.
const FIRST: u64 = 3_503_912;

const THIRD: u64 = 1_016_263;

const FIFTH: u64 = 279_293;

const MINUTE_PARTS: u64 = 1_024;

// The angle from 0 to 45° whose tangent is x/2^14, to within 4 minutes.
fn arctangent_minutes(x: u64) -> u64
    requires { x ≤ whole_part }
    ensures { result ≤ quarter_minutes }
{
    let square = part(x, x);
    part(FIRST - part(THIRD - part(FIFTH, square), square), x) / MINUTE_PARTS
}

// angle(p, q) to within 4 minutes.
fn estimate_minutes(p: u64, q: u64) -> u64
    requires { (p ≤ angle_limit) × (q ≤ angle_limit) }
    ensures { result ≤ quarter_minutes }
{
    let k = arctangent_minutes(ratio(p.min(q), p.max(q)));
    if q <= p { k } else { QUARTER_MINUTES - k }
}

// One radian, and ten minutes, in mas.
const RADIAN: u64 = 206_264_806;

const TEN_MINUTES: u64 = 600_000;

// One part in SLACK_PARTS of p + q is more than the bend of sine and cosine in a minute takes.
const SLACK_PARTS: u64 = 1_024;

impl Under<'_> {
    // One test at theta, inside minute k. From mas to mas of a minute cosine(θ)·q − sine(θ)·p falls by `fall`, less
    // p + q for the roundings of sine and cosine and less a little for their bend. Where it is nearer to 0 at theta
    // than that, it is 0 or more at theta or at the mas before, and below 0 at the next.
    #[tactic(auto, using(crate::proofs::Angles::product_small, trig::proofs::Fraction::rise_product))]
    fn settle(&self, theta: u64) -> Option<u64>
        requires { theta ≤ right_angle }
        ensures { Settles self.now.p self.now.q result }
    {
        let k = theta / MINUTE;
        let r = theta % MINUTE;
        if r == 0 {
            return None;
        }
        let at = quarter_pair(self.t, k, r);
        let s = at.sine * self.p;
        let c = at.cosine * self.q;
        let fall = (rise(self.t, k) * self.p + rise(self.t, QUARTER_MINUTES - 1 - k) * self.q)
            / MINUTE;
        let slack = self.p + self.q + (self.p + self.q) / SLACK_PARTS;
        if fall <= s.abs_diff(c) + slack {
            return None;
        }
        Some(if s <= c { theta } else { theta - 1 })
    }

    // angle(p, q) to the nearest mas, mostly, where p or q is large. The part of it past minute k has the tangent
    // (cosine(k)·q − sine(k)·p)/(cosine(k)·p + sine(k)·q). Ten minutes are added on the way, so that
    // nothing is negative. Nothing rests on its precision.
    #[tactic(auto, using(crate::proofs::Angles::minute_product))]
    fn estimate(&self) -> u64
        ensures { result ≤ right_angle }
    {
        let p = self.p;
        let q = self.q;
        let k = estimate_minutes(p, q);
        let s = minute_sine(self.t, k);
        let c = minute_sine(self.t, QUARTER_MINUTES - k);
        let mas = c * p / RADIAN + s * q / RADIAN + 1;
        let theta = MINUTE * k + excess(c * q + TEN_MINUTES * mas + mas / 2, s * p) / mas;
        excess(theta, TEN_MINUTES).min(RIGHT_ANGLE)
    }
}

// angle(p, q): the angle from 0 to 90° whose sine and cosine are as q and p.
pub fn angle(t: &SineTable, p: u64, q: u64) -> u64
    requires { (p ≤ angle_limit) × (q ≤ angle_limit) }
    ensures { result ≡ angle p q }
{
    // both are 0
    if p + q == 0 {
        return 0;
    }
    let test = Under { t, p, q };
    let theta = test.estimate();
    match test.settle(theta) {
        Some(at) => search(&test, at, at),
        None => search_near(&test, theta, 1),
    }
}

// How far an answer in whole numbers is from the one expected: what decides whether a row of `vectors` ends in "ok",
// and the numbers that it says it is off by.
#![tactic(auto)]

ghost use Rattle.std.specs.Prelude.{◌≡◌, ◌<◌, ◌≤◌, eqb};
ghost use Rattle.units.specs.Units.{unit};
ghost use Rattle.gaps.specs.InnerGaps.{told, told_of, gaps_of, part, on_ground, is_right};

use integers::{magnitude, nearest};
use units::UNIT_DIVISOR;
use units::refusals::Refusal;

// An answer in whole numbers: latitude and longitude, easting and northing, or the two numbers of a cell.
pub type Answer = Result<(i64, i64), Refusal>;

// What an answer tells: its refusal number, 0 where it is accepted; then its two values, 0 and 0 where it is refused.
#[derive(Clone, Copy)]
pub struct Told {
    pub refusal: u8,
    pub first: i64,
    pub second: i64,
}

impl From<Answer> for Told {
    ghost from_gives = { λ answer given. told_of given ≡ told answer };

    fn from(answer: Answer) -> Told {
        match answer {
            Ok((first, second)) => Told {
                refusal: 0,
                first,
                second,
            },
            Err(refusal) => Told {
                refusal: refusal.number(),
                first: 0,
                second: 0,
            },
        }
    }
}

// The sizes of the differences of two pairs of values.
#[derive(Clone, Copy, Debug, PartialEq, Eq)]
pub struct Gaps {
    pub first: u64,
    pub second: u64,
}

pub fn gaps_of(found: Told, right: Told) -> Gaps
    ensures { result ≡ gaps_of (told_of found) (told_of right) }
{
    Gaps {
        first: found.first.abs_diff(right.first),
        second: found.second.abs_diff(right.second),
    }
}

// Sizes on the ground are cut at this, which no size of a row reaches, so that their products are within 64 bits.
const CAP: u64 = 2_000_000_000;

// One radian, in mas.
const RADIAN: u64 = 206_264_806;

// near(x·y/d), of x and y cut.
fn part(x: u64, y: u64, d: u64) -> u64
    requires { (0 < d) × (d ≤ unit) }
    ensures { result ≡ part x y d }
{
    nearest(x.min(CAP) * y.min(CAP), d)
}

// Gaps of latitude and longitude as lengths in cm on a sphere of this radius, at a latitude with this cosine.
pub fn on_ground(radius: i64, cosine: i64, off: Gaps) -> Gaps
    ensures { result ≡ on_ground radius cosine off }
{
    let great_circle = magnitude(radius);
    Gaps {
        first: part(great_circle, off.first, RADIAN),
        second: part(
            magnitude(cosine),
            part(great_circle, off.second, RADIAN),
            UNIT_DIVISOR,
        ),
    }
}

// Whether both are accepted, or both refused by one number.
fn are_refused_alike(found: Told, right: Told) -> bool
    ensures { result ≡ eqb (told_of found).refusal (told_of right).refusal }
{
    found.refusal == right.refusal
}

// Whether an answer that is off by this is the one expected, with at most so much in either value.
pub fn is_right(found: Told, right: Told, off: Gaps, most: u64) -> bool
    ensures { result ≡ is_right (told_of found) (told_of right) off most }
{
    are_refused_alike(found, right) && off.first <= most && off.second <= most
}

// How far the answer is from the position put in, in document 01's terms.
ghost use Rattle.std.specs.Prelude.{◌≡◌, ◌*◌, ◌≤◌, pos, nat_abs, ◌-ℤ◌};
ghost use Rattle.units.specs.Units.{unit, right_angle, half_turn};
ghost use Rattle.trig.specs.Sine.{cosine};
ghost use Rattle.latitudes.specs.Latitude.{beta};
ghost use Rattle.round_trip.specs.RoundTrip.{turn_gap};
ghost use Rattle.worst_gaps.specs.InnerGaps.{thousandths_of, gap_thousandths};

use constants::projection::Projection;
use integers::magnitude;
use latitudes::{Geodetic, Latitude, to_authalic};
use units::FULL_TURN;

// Billionths in a thousandth.
const THOUSANDTH: u64 = 1_000_000;

// The smallest size that the difference of two longitudes plus whole turns can have.
#[tactic(auto, using(crate::proofs::GapLaws::shorter_way, crate::proofs::GapLaws::turn_most))]
fn turn_gap(x: i64, y: i64) -> u64
    requires { (nat_abs x ≤ half_turn) × (nat_abs y ≤ half_turn) }
    ensures { result ≡ turn_gap (y -ℤ x) }
{
    let size = y.abs_diff(x);
    size.min(FULL_TURN - size)
}

// cosine(β) of a geodetic latitude, which is not negative.
fn weight(projection: &Projection, lat: Geodetic) -> u64
    requires { nat_abs lat.0 ≤ right_angle }
    ensures { pos result ≡ cosine (beta projection.now.constants.series lat).0 }
{
    let table = projection.table;
    magnitude(to_authalic(table, projection.constants.series, lat).cosine(table))
}

// A turn gap times cosine(β)/U, in thousandths of a mas, rounded up.
fn thousandths(turn: u64, cosine: u64) -> u64
    requires { (turn ≤ half_turn) × (cosine ≤ unit) }
    ensures { result ≡ thousandths_of (turn * cosine) }
{
    (turn * cosine).div_ceil(THOUSANDTH)
}

// The longitude gap at a latitude, in thousandths of a mas.
pub(crate) fn longitude_gap(projection: &Projection, lat: Geodetic, x: i64, y: i64) -> u64
    requires { (nat_abs lat.0 ≤ right_angle) × (nat_abs x ≤ half_turn) × (nat_abs y ≤ half_turn) }
    ensures { result ≡ gap_thousandths projection.now.set lat x y }
{
    thousandths(turn_gap(x, y), weight(projection, lat))
}

// A fixed sequence of positions.
ghost use Rattle.std.specs.Prelude.{◌≡◌, ◌≤◌, nat_abs};
ghost use Rattle.units.specs.Units.{half_turn};
ghost use Rattle.round_trip.specs.RoundTrip.{farthest_latitude};
ghost use Rattle.worst_gaps.specs.InnerPositions.{next_of, spread_of, latitude_at, longitude_at};

use azimuthal_forward::GeodeticPosition;
use integers::signed;
use latitudes::Geodetic;
use units::HALF_TURN;

// Demand 3 speaks of positions at most 89° from the Equator.
const FARTHEST_LATITUDE: u64 = 320_400_000;

// The sequence is s · FACTOR + STEP, modulo MODULUS; the digit of s at SIGN_PLACE decides a sign.
const MODULUS: u64 = 2_147_483_648;

const FACTOR: u64 = 1_103_515_245;

const STEP: u64 = 12_345;

const SIGN_PLACE: u64 = 65_536;

// The next number of the sequence.
pub(crate) fn next(s: u64) -> u64
    ensures { result ≡ next_of s }
{
    (s % MODULUS * FACTOR + STEP) % MODULUS
}

// A number of the sequence as one from −most to most.
fn spread(s: u64, most: u64) -> i64
    requires { most ≤ half_turn }
    ensures { result ≡ spread_of s most }
{
    signed(s / SIGN_PLACE % 2 == 0, s % (most + 1))
}

// The position that the number s of the sequence and the next one give.
#[tactic(auto, using(crate::proofs::Sequence::spread_size))]
pub(crate) fn position(s: u64) -> GeodeticPosition
    ensures latitude { result.latitude ≡ latitude_at s }
    ensures longitude { result.longitude ≡ longitude_at s }
    ensures latitude_size { nat_abs result.latitude.0 ≤ farthest_latitude }
    ensures longitude_size { nat_abs result.longitude ≤ half_turn }
{
    GeodeticPosition {
        latitude: Geodetic(spread(s, FARTHEST_LATITUDE)),
        longitude: spread(next(s), HALF_TURN),
    }
}

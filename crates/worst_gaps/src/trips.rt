// Round trips of one set: forward, then the inverse of exactly that easting and northing.
ghost use Rattle.std.specs.Prelude.{◌≡◌, ◌≤◌, nat_abs};
ghost use Rattle.units.specs.Units.{right_angle, half_turn};
ghost use Rattle.azimuthal_forward.specs.Answer.{nearness as nearness_of};
ghost use Rattle.worst_gaps.specs.InnerPositions.{start};
ghost use Rattle.worst_gaps.specs.InnerTallies.{no_trips, trip_of, step_of, run_of};

use crate::gaps::longitude_gap;
use crate::positions::{next, position};
use crate::tally::Tally;
use azimuthal_forward::{GeodeticPosition, direction_of};
use constants::projection::Projection;
use parameters::Parameters;
use round_trip::there_and_back;
use sine_table::SineTable;

// Demand 3 speaks of positions whose nearness is at least 1,000,000,000.
const LEAST_NEARNESS: i64 = 1_000_000_000;

// How many positions of the sequence are tried for a set, and where it starts.
const POSITIONS: u64 = 1_500;

const START: u64 = 1;

// There and back.
fn trip(projection: &Projection, at: GeodeticPosition, seen: Tally) -> Tally
    requires { (nat_abs at.latitude.0 ≤ right_angle) × (nat_abs at.longitude ≤ half_turn) }
    ensures { result ≡ trip_of projection.now.set at.latitude at.longitude seen }
{
    match there_and_back(projection.set, at.latitude, at.longitude) {
        Ok(back) => seen.add(
            back.latitude.0.abs_diff(at.latitude.0),
            longitude_gap(projection, at.latitude, at.longitude, back.longitude),
        ),
        Err(_) => seen.refuse(),
    }
}

// The nearness G of a position to the centre.
fn nearness(projection: &Projection, at: GeodeticPosition) -> i64
    requires { (nat_abs at.latitude.0 ≤ right_angle) × (nat_abs at.longitude ≤ half_turn) }
    ensures { result ≡ nearness_of projection.now.set at.latitude at.longitude }
{
    direction_of(
        projection.table,
        projection.constants,
        at.latitude,
        at.longitude - projection.set.lon0,
    )
    .g
}

// There and back for a position of the sequence, if it is near enough.
#[tactic(auto, unfolding(crate::specs::InnerTallies::step_of))]
fn step(projection: &Projection, s: u64, seen: Tally) -> Tally
    ensures { result ≡ step_of projection.now.set s seen }
{
    let at = position(s);
    if nearness(projection, at) < LEAST_NEARNESS {
        seen
    } else {
        trip(projection, at, seen)
    }
}

// So many positions of the sequence.
fn run(projection: &Projection, count: u64) -> Tally
    ensures { result ≡ run_of projection.now.set count start no_trips }
{
    let mut seen = Tally::none();
    let mut s = START;
    for _ in 0..count {
        seen = step(projection, s, seen);
        s = next(next(s));
    }
    seen
}

// One line for a set; one that is not accepted has no round trip.
pub(crate) fn row(rt: &impl Print, t: &SineTable, name: &str, set: Parameters) {
    match Projection::new(t, set) {
        Ok(projection) => {
            run(&projection, POSITIONS).print(rt, name);
        }
        Err(_) => {
            Tally::none().refuse().print(rt, name);
        }
    }
}

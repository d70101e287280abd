// From geodetic latitude and longitude to easting and northing, in whole units.
#![tactic(auto)]

ghost use Rattle.std.specs.Prelude.{◌≡◌, ◌≤◌, ◌*◌, [], ◌∷◌, map, pos, nat_abs, ◌+ℤ◌, ◌*ℤ◌, ◌≤ℤ◌};
ghost use Rattle.integers.specs.Near.{near as nearOf};
ghost use Rattle.units.specs.Units.{right_angle, full_turn};
ghost use Rattle.latitudes.specs.InnerSizes.{SmallSeries};
ghost use Rattle.constants.specs.InnerPrepared.{BoundedCentre};
ghost use Rattle.azimuthal_forward.specs.Steps.{H as scale_of, direction_of};
ghost use Rattle.azimuthal_forward.specs.Answer.{on_globe, plane_answer, forward_of, plane_told, forward_told};
ghost use Rattle.azimuthal_forward.specs.InnerStages.{before_answer, before_root, AfterRoot, after_root, forward_at};

use billionths::{difference, product, sum};
use constants::Constants;
use constants::projection::Projection;
use integers::{near, root, roots};
use latitudes::{Geodetic, Latitude, to_authalic};
use parameters::Parameters;
use sine_table::SineTable;
use trig::sine_cosine;
use units::refusals::Refusal;
use units::{LATITUDE_LEAST, LATITUDE_MOST, LONGITUDE_LEAST, LONGITUDE_MOST, UNIT, are_within};

// Easting and northing in cm.
#[derive(Clone, Copy, Debug, PartialEq, Eq)]
pub struct PlanePosition {
    pub easting: i64,
    pub northing: i64,
}

// Latitude and longitude in mas.
#[derive(Clone, Copy, Debug, PartialEq, Eq)]
pub struct GeodeticPosition {
    pub latitude: Geodetic,
    pub longitude: i64,
}

// Where a position lies as seen from the centre: u, w and the nearness G of document 01.
#[derive(Clone, Copy)]
pub struct Direction {
    pub u: i64,
    pub w: i64,
    pub g: i64,
}

// The nearness of the centre, 2U.
const CENTRE_NEARNESS: i64 = 2_000_000_000;

// Half of U.
const HALF_UNIT: i64 = 500_000_000;

// A nearness below this is refused 4.
pub const LEAST_NEARNESS: i64 = 20_000_000;

// G·500,000,000, the number whose root is H.
fn scale_square(g: i64) -> u64
    requires { (pos 0 ≤ℤ g) × (nat_abs g ≤ 4_000_000_000) }
    ensures { result ≡ nat_abs (g *ℤ pos 500_000_000) }
{
    (g * HALF_UNIT) as u64
}

// H = root(G·500,000,000)
#[tactic(auto, unfolding(crate::specs::Steps::H))]
pub fn scale(g: i64) -> u64
    requires { (pos 0 ≤ℤ g) × (nat_abs g ≤ 4_000_000_000) }
    ensures { result ≡ scale_of g }
{
    root(scale_square(g))
}

// H for two positions.
#[tactic(auto, unfolding(crate::specs::Steps::H))]
pub fn scales(g: i64, g2: i64) -> [u64; 2]
    requires { (pos 0 ≤ℤ g) × (nat_abs g ≤ 4_000_000_000) × (pos 0 ≤ℤ g2) × (nat_abs g2 ≤ 4_000_000_000) }
    ensures { result ≡ scale_of g ∷ scale_of g2 ∷ [] }
{
    roots(scale_square(g), scale_square(g2))
}

// The direction of a latitude and a longitude difference d.
pub fn direction_of(t: &SineTable, k: Constants, lat: Geodetic, d: i64) -> Direction
    requires { SmallSeries k.series × BoundedCentre k × (nat_abs lat.0 ≤ right_angle) × (nat_abs d ≤ full_turn) }
    ensures { result ≡ direction_of k lat d }
{
    let series = k.series;
    let s0 = k.s0;
    let c0 = k.c0;
    let beta = to_authalic(t, series, lat);
    let on = beta.sine_cosine(t);
    let turn = sine_cosine(t, d);
    let v = product(on.cosine, turn.cosine);
    Direction {
        u: product(on.cosine, turn.sine),
        w: difference(c0, on.sine, s0, v),
        g: UNIT + sum(s0, on.sine, c0, v),
    }
}

// Whether a position is within ±90° and ±180°.
#[tactic(auto, unfolding(crate::specs::Answer::on_globe))]
fn is_on_globe(lat: Geodetic, lon: i64) -> bool
    ensures { result ≡ on_globe lat lon }
{
    are_within(
        LATITUDE_LEAST,
        LATITUDE_MOST,
        lat.0,
        LONGITUDE_LEAST,
        LONGITUDE_MOST,
        lon,
    )
}

// A plane coordinate: the false one plus near(r·x/h).
fn coordinate(origin: i64, r: i64, x: i64, h: u64) -> i64
    requires { (nat_abs origin ≤ 1_000_000_000) × (nat_abs r ≤ 1_080_000_000) × (nat_abs x ≤ 2_000_000_000) × (100_000_000 ≤ h) × (h ≤ 1_500_000_000) }
    ensures { result ≡ origin +ℤ nearOf (r *ℤ x) h }
{
    origin + near(r * x, h)
}

// The steps up to the nearness, which decides the last refusal.
#[tactic(auto, using(crate::proofs::StageLaws::before_off_globe, crate::proofs::StageLaws::before_too_far))]
fn steps_before_root(projection: &Projection, lat: Geodetic, lon: i64) -> Result<Direction, Refusal>
    ensures { before_answer result ≡ before_root projection.now.set lat lon }
{
    Refusal::OutOfLimits.unless(is_on_globe(lat, lon))?;
    let direction = direction_of(
        projection.table,
        projection.constants,
        lat,
        lon - projection.set.lon0,
    );
    Refusal::TooFar.unless(LEAST_NEARNESS <= direction.g)?;
    Ok(direction)
}

// The nearness whose root is taken: for a refused position that of the centre, so that its root can be
// taken with another's.
fn nearness(before: Result<Direction, Refusal>) -> i64
    ensures { result ≡ (before_answer before).direction.g }
{
    before.map_or(CENTRE_NEARNESS, |direction| direction.g)
}

// The steps that take the root h.
fn steps_after_root(
    projection: &Projection,
    before: Result<Direction, Refusal>,
    h: u64,
) -> Result<PlanePosition, Refusal>
    requires { AfterRoot (before_answer before).direction h }
    ensures { plane_answer result ≡ after_root projection.now.set projection.now.constants (before_answer before) h }
{
    let to = before?;
    let set = projection.set;
    let k = projection.constants;
    Ok(PlanePosition {
        easting: coordinate(set.false_easting, k.rd, to.u, h),
        northing: coordinate(set.false_northing, k.rn, to.w, h),
    })
}

// A position with an accepted set and its constants.
pub fn forward_point(
    projection: &Projection,
    lat: Geodetic,
    lon: i64,
) -> Result<PlanePosition, Refusal>
    ensures { plane_answer result ≡ forward_of projection.now.set lat lon }
{
    let before = steps_before_root(projection, lat, lon);
    steps_after_root(projection, before, scale(nearness(before)))
}

// Two positions, whose roots are taken together.
pub fn forward_points(
    projection: &Projection,
    at: [GeodeticPosition; 2],
) -> [Result<PlanePosition, Refusal>; 2]
    ensures { map plane_answer result ≡ map (forward_at projection.now.set) at }
{
    let [at, at2] = at;
    let before = steps_before_root(projection, at.latitude, at.longitude);
    let before2 = steps_before_root(projection, at2.latitude, at2.longitude);
    let [h, h2] = scales(nearness(before), nearness(before2));
    [
        steps_after_root(projection, before, h),
        steps_after_root(projection, before2, h2),
    ]
}

// Any set, any position: the customer's call.
pub fn forward(p: Parameters, lat: Geodetic, lon: i64) -> Result<PlanePosition, Refusal>
    ensures { (plane_answer result ≡ forward_of p lat lon) × (plane_told (plane_answer result) ≡ forward_told p lat lon) }
{
    p.check()?;
    let table = SineTable::new();
    let projection = Projection::of_accepted(&table, p);
    forward_point(&projection, lat, lon)
}

// One point, or two at a time: degrees to metres and back.
#![tactic(auto)]

ghost use Rattle.std.specs.Prelude.{◌≡◌};
ghost use Rattle.pairs.specs.PlanePairAnswer.{plane_pair_answer};
ghost use Rattle.pairs.specs.GeodeticPairAnswer.{geodetic_pair_answer};
ghost use Rattle.pairs.specs.Pairs.{plane_row, geodetic_row};
ghost use Rattle.points.specs.Points.{forward_degrees, forward_row, inverse_metres, inverse_row};
ghost use Rattle.points.specs.InnerStages.{Stages, numbered, whole_by, answer_by, forward_stages, inverse_stages};

use azimuthal_forward::{GeodeticPosition, PlanePosition, forward_point, forward_points};
use azimuthal_inverse::{inverse_point, inverse_points};
use constants::projection::Projection;
use floats::{Coordinate, Latitude, Longitude, Plane};
use latitudes::Geodetic;
use pairs::{
    GeodeticPair, PlanePair, are_finite, in_degrees, in_metres, is_within_globe, is_within_plane,
};
use parameters::Parameters;
use sine_table::SineTable;
use units::refusals::Refusal;

// The answers of two pairs. No array: a caller that is generic too would owe that an array of a type
// parameter is not too large.
pub type Both<A> = (Result<A, Refusal>, Result<A, Refusal>);

// A direction through a projection: what the calls for one point and for lists ask of it.
pub trait Direction {
    // The pair put in, its position in whole units, and the pair found.
    type Given: Copy;

    type Whole: Copy;

    type Found: Copy;

    ghost stages: { Stages Self.Given Self.Whole Self.Found };

    // The pair of two values of lists, and the values of a pair found.
    fn given(x: f64, y: f64) -> Self::Given
        ensures { result ≡ stages.given x y };

    fn values(found: Self::Found) -> (f64, f64)
        ensures { result ≡ stages.values found };

    // The first stage: tests a pair, and rounds it to whole units.
    fn whole(at: Self::Given) -> Result<Self::Whole, Refusal>
        ensures { numbered result ≡ whole_by stages at };

    // The steps from there.
    fn steps(projection: &Projection, at: Self::Whole) -> Result<Self::Found, Refusal>
        ensures { numbered result ≡ stages.steps projection.now.set at };

    // The steps of two positions, which take their roots together.
    fn both_steps(projection: &Projection, at: Self::Whole, at2: Self::Whole) -> Both<Self::Found>
        ensures { (numbered result.0 ≡ stages.steps projection.now.set at) × (numbered result.1 ≡ stages.steps projection.now.set at2) };
}

// From degrees to metres.
pub struct Forward;

// From metres to degrees.
pub struct Inverse;

impl Direction for Forward {
    type Given = GeodeticPair;

    type Whole = GeodeticPosition;

    type Found = PlanePair;

    ghost stages = { forward_stages };

    fn given(x: f64, y: f64) -> GeodeticPair {
        GeodeticPair {
            latitude: x,
            longitude: y,
        }
    }

    fn values(found: PlanePair) -> (f64, f64) {
        (found.first, found.second)
    }

    #[tactic(auto, unfolding(crate::specs::InnerStages::tested, pairs::specs::Pairs::within_globe, pairs::specs::Pairs::latitude_mas, pairs::specs::Pairs::longitude_mas))]
    fn whole(at: GeodeticPair) -> Result<GeodeticPosition, Refusal> {
        Refusal::NotFinite.unless(are_finite(at.latitude, at.longitude))?;
        Refusal::OutOfLimits.unless(is_within_globe(at))?;
        Ok(GeodeticPosition {
            latitude: Geodetic(Latitude::to_whole(at.latitude)),
            longitude: Longitude::to_whole(at.longitude),
        })
    }

    fn steps(projection: &Projection, at: GeodeticPosition) -> Result<PlanePair, Refusal> {
        in_metres(forward_point(projection, at.latitude, at.longitude))
    }

    fn both_steps(
        projection: &Projection,
        at: GeodeticPosition,
        at2: GeodeticPosition,
    ) -> Both<PlanePair> {
        let [first, second] = forward_points(projection, [at, at2]);
        (in_metres(first), in_metres(second))
    }
}

impl Direction for Inverse {
    type Given = PlanePair;

    type Whole = PlanePosition;

    type Found = GeodeticPair;

    ghost stages = { inverse_stages };

    fn given(x: f64, y: f64) -> PlanePair {
        PlanePair {
            first: x,
            second: y,
        }
    }

    fn values(found: GeodeticPair) -> (f64, f64) {
        (found.latitude, found.longitude)
    }

    #[tactic(auto, unfolding(crate::specs::InnerStages::tested, pairs::specs::Pairs::within_plane, pairs::specs::Pairs::easting_cm, pairs::specs::Pairs::northing_cm))]
    fn whole(at: PlanePair) -> Result<PlanePosition, Refusal> {
        Refusal::NotFinite.unless(are_finite(at.first, at.second))?;
        Refusal::OutOfLimits.unless(is_within_plane(at))?;
        Ok(PlanePosition {
            easting: Plane::to_whole(at.first),
            northing: Plane::to_whole(at.second),
        })
    }

    fn steps(projection: &Projection, at: PlanePosition) -> Result<GeodeticPair, Refusal> {
        in_degrees(inverse_point(projection, at.easting, at.northing))
    }

    fn both_steps(
        projection: &Projection,
        at: PlanePosition,
        at2: PlanePosition,
    ) -> Both<GeodeticPair> {
        let [first, second] = inverse_points(projection, [at, at2]);
        (in_degrees(first), in_degrees(second))
    }
}

// A pair with an accepted set.
pub fn pair<D: Direction>(projection: &Projection, at: D::Given) -> Result<D::Found, Refusal>
    ensures { numbered result ≡ answer_by D.stages projection.now.set at }
{
    let whole = D::whole(at)?;
    D::steps(projection, whole)
}

// Two pairs with an accepted set. They share the steps' roots where both pass their tests.
pub fn both_pairs<D: Direction>(
    projection: &Projection,
    at: D::Given,
    at2: D::Given,
) -> Both<D::Found>
    ensures { (numbered result.0 ≡ answer_by D.stages projection.now.set at) × (numbered result.1 ≡ answer_by D.stages projection.now.set at2) }
{
    match (D::whole(at), D::whole(at2)) {
        (Ok(whole), Ok(whole2)) => D::both_steps(projection, whole, whole2),
        _ => (pair::<D>(projection, at), pair::<D>(projection, at2)),
    }
}

// Any set, any pair.
fn single<D: Direction>(p: Parameters, at: D::Given) -> Result<D::Found, Refusal>
    ensures { numbered result ≡ answer_by D.stages p at }
{
    p.check()?;
    let t = SineTable::new();
    let projection = Projection::of_accepted(&t, p);
    pair::<D>(&projection, at)
}

// Any set, any pair of doubles: the customer's call from degrees to metres.
pub fn forward_degrees(p: Parameters, at: GeodeticPair) -> Result<PlanePair, Refusal>
    ensures { (plane_pair_answer result ≡ forward_degrees p at) × (plane_row (plane_pair_answer result) ≡ forward_row p at) }
{
    single::<Forward>(p, at)
}

// Any set, any pair of doubles: the customer's call from metres to degrees.
pub fn inverse_metres(p: Parameters, at: PlanePair) -> Result<GeodeticPair, Refusal>
    ensures { (geodetic_pair_answer result ≡ inverse_metres p at) × (geodetic_row (geodetic_pair_answer result) ≡ inverse_row p at) }
{
    single::<Inverse>(p, at)
}

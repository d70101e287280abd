// Pairs of f64, and their tests and conversions.
#![tactic(auto)]

ghost use Rattle.std.specs.Prelude.{◌≡◌};
ghost use Rattle.azimuthal_forward.specs.Answer.{plane_answer};
ghost use Rattle.azimuthal_inverse.specs.Answer.{geodetic_answer};
ghost use Rattle.pairs.specs.Pairs.{are_finite, within_globe, within_plane, in_metres, in_degrees};
ghost use Rattle.pairs.specs.PlanePairAnswer.{plane_pair_answer};
ghost use Rattle.pairs.specs.GeodeticPairAnswer.{geodetic_pair_answer};

use azimuthal_forward::{GeodeticPosition, PlanePosition};
use floats::{Coordinate, Latitude, Longitude, Plane, is_finite};
use units::refusals::Refusal;

// In degrees.
#[derive(Clone, Copy, Debug, PartialEq)]
pub struct GeodeticPair {
    pub latitude: f64,
    pub longitude: f64,
}

// In metres, by place: easting stands first today.
#[derive(Clone, Copy, Debug, PartialEq)]
pub struct PlanePair {
    pub first: f64,
    pub second: f64,
}

// Neither is NaN or infinite.
#[tactic(auto, unfolding(crate::specs::Pairs::are_finite))]
pub fn are_finite(x: f64, y: f64) -> bool
    ensures { result ≡ are_finite x y }
{
    is_finite(x) && is_finite(y)
}

// Latitude within ±90° and longitude within ±180°.
#[tactic(auto, unfolding(crate::specs::Pairs::within_globe))]
pub fn is_within_globe(at: GeodeticPair) -> bool
    ensures { result ≡ within_globe at }
{
    Latitude::is_within(at.latitude) && Longitude::is_within(at.longitude)
}

// Both within ±50,000,000 m.
#[tactic(auto, unfolding(crate::specs::Pairs::within_plane))]
pub fn is_within_plane(at: PlanePair) -> bool
    ensures { result ≡ within_plane at }
{
    Plane::is_within(at.first) && Plane::is_within(at.second)
}

// The whole-unit answer in metres. A pair or its refusal is a `Result`: an enum of two cases, whose
// refusal has a number (units::refusals).
pub fn in_metres(answer: Result<PlanePosition, Refusal>) -> Result<PlanePair, Refusal>
    ensures { plane_pair_answer result ≡ in_metres (plane_answer answer) }
{
    answer.map(|at| PlanePair {
        first: Plane::to_float(at.easting),
        second: Plane::to_float(at.northing),
    })
}

// The whole-unit answer in degrees.
pub fn in_degrees(answer: Result<GeodeticPosition, Refusal>) -> Result<GeodeticPair, Refusal>
    ensures { geodetic_pair_answer result ≡ in_degrees (geodetic_answer answer) }
{
    answer.map(|at| GeodeticPair {
        latitude: Latitude::to_float(at.latitude.0),
        longitude: Longitude::to_float(at.longitude),
    })
}

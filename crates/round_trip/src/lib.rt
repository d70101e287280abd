// Demand 3: the round trip. The statement is in specs/RoundTrip.antt, its proof in proofs/.
#![tactic(auto)]

ghost use Rattle.std.specs.Prelude.{◌≡◌};
ghost use Rattle.azimuthal_forward.specs.Answer.{forward_of};
ghost use Rattle.azimuthal_inverse.specs.Answer.{geodetic_answer};
ghost use Rattle.round_trip.specs.RoundTrip.{there_and_back, MeetsDemand3};

use azimuthal_forward::{GeodeticPosition, forward};
use azimuthal_inverse::inverse;
use latitudes::Geodetic;
use parameters::Parameters;
use units::refusals::Refusal;

// To the plane and back: the inverse answer for exactly the forward answer, or its refusal.
pub fn there_and_back(p: Parameters, lat: Geodetic, lon: i64) -> Result<GeodeticPosition, Refusal>
    ensures equation { geodetic_answer result ≡ there_and_back p (forward_of p lat lon) }
    ensures demand { MeetsDemand3 p lat lon (geodetic_answer result) }
{
    let plane = forward(p, lat, lon)?;
    inverse(p, plane.easting, plane.northing)
}

// From easting and northing back to geodetic latitude and longitude, in whole units.
#![tactic(auto)]

ghost use Rattle.std.specs.Prelude.{◌≡◌, ◌≤◌, map, nat_abs};
ghost use Rattle.integers.specs.Root.{root};
ghost use Rattle.constants.specs.InnerPrepared.{BoundedCentre};
ghost use Rattle.azimuthal_forward.specs.Steps.{H as scale_of};
ghost use Rattle.sphere_points.specs.Points.{point_at};
ghost use Rattle.sphere_points.specs.Sphere.{G};
ghost use Rattle.sphere_points.specs.InnerSizes.{squared_radius};
ghost use Rattle.azimuthal_inverse.specs.Steps.{at_origin, on_map};
ghost use Rattle.azimuthal_inverse.specs.Answer.{Position, geodetic_answer, geodetic_told, inverse_of, inverse_told};
ghost use Rattle.azimuthal_inverse.specs.InnerStages.{position_of, OfAcceptedSet, point_answer, reduced_of, plane_point_of, SmallReduced, sphere_point_of, answer_of, inverse_at};

use azimuthal_forward::{GeodeticPosition, LEAST_NEARNESS, PlanePosition, scale, scales};
use billionths::quotient;
use constants::Constants;
use constants::projection::Projection;
use geodetic_search::to_geodetic;
use integers::{root, roots};
use parameters::Parameters;
use sine_table::SineTable;
use sphere_points::{
    SpherePoint, TWO_UNITS, latitude_of, longitude_of, point, squared_radius, versine,
};
use units::refusals::Refusal;
use units::{are_within, is_on_plane, wrap};

// Whether dE and dN are within twice RD and RN.
fn is_on_map(k: Constants, de: i64, dn: i64) -> bool
    requires { (nat_abs k.rd ≤ 1_080_000_000) × (nat_abs k.rn ≤ 1_080_000_000) }
    ensures { result ≡ on_map k de dn }
{
    let e = 2 * k.rd;
    let n = 2 * k.rn;
    are_within(-e, e, de, -n, n, dn)
}

// Whether both are zero: the false origin itself.
#[tactic(auto, unfolding(crate::specs::Steps::at_origin, units::specs::Spans::same))]
fn is_origin(de: i64, dn: i64) -> bool
    ensures { result ≡ at_origin de dn }
{
    are_within(0, 0, de, 0, 0, dn)
}

// X, Y and K of document 01, of a point of the plane.
#[derive(Clone, Copy)]
struct Reduced {
    x: i64,
    y: i64,
    versed: i64,
}

// An accepted point of the plane: the false origin itself, or a point that the steps take.
#[derive(Clone, Copy)]
enum MapPoint {
    FalseOrigin,
    Away(Reduced),
}

// The point dE east and dN north of the false origin.
fn map_point(k: Constants, de: i64, dn: i64) -> Result<MapPoint, Refusal>
    requires { OfAcceptedSet k }
    ensures { point_answer result ≡ reduced_of k de dn }
{
    if is_origin(de, dn) {
        return Ok(MapPoint::FalseOrigin);
    }
    Refusal::TooFar.unless(is_on_map(k, de, dn))?;
    let x = quotient(de, k.rd);
    let y = quotient(dn, k.rn);
    let versed = versine(x, y);
    Refusal::TooFar.unless(LEAST_NEARNESS <= TWO_UNITS - versed)?;
    Ok(MapPoint::Away(Reduced { x, y, versed }))
}

// The point for an easting and a northing.
fn plane_point(projection: &Projection, easting: i64, northing: i64) -> Result<MapPoint, Refusal>
    ensures { point_answer result ≡ plane_point_of projection.now.set projection.now.constants easting northing }
{
    Refusal::OutOfLimits.unless(is_on_plane(easting, northing))?;
    let set = projection.set;
    map_point(
        projection.constants,
        easting - set.false_easting,
        northing - set.false_northing,
    )
}

// X, Y and K. Of a refused point and of the false origin they are 0, so that the roots may be taken for
// any point.
fn reduced_or_zero(q: Result<MapPoint, Refusal>) -> Reduced
    ensures { result ≡ (point_answer q).reduced }
{
    match q {
        Ok(MapPoint::Away(reduced)) => reduced,
        _ => Reduced {
            x: 0,
            y: 0,
            versed: 0,
        },
    }
}

// G of a point.
#[tactic(auto, unfolding(sphere_points::specs::Sphere::G))]
fn nearness(r: Reduced) -> i64
    requires { SmallReduced r }
    ensures { result ≡ G r.versed }
{
    TWO_UNITS - r.versed
}

// The point of the sphere, with H of its nearness.
fn sphere_point(k: Constants, r: Reduced, h: u64) -> SpherePoint
    requires { BoundedCentre k × SmallReduced r × (h ≡ scale_of (G r.versed)) }
    ensures { point_at result.east result.z result.f ≡ sphere_point_of k r }
{
    point(k, r.x, r.y, r.versed, h)
}

// The latitude and longitude of a point of the sphere, whose distance from the axis is `radius`. The search for
// the geodetic latitude comes last: neither angle waits for it.
fn position(projection: &Projection, s: SpherePoint, radius: u64) -> GeodeticPosition
    requires { radius ≡ root (squared_radius (point_at s.east s.z s.f)) }
    ensures { Position result.latitude result.longitude ≡ position_of projection.now.constants.series projection.now.set.lon0 (point_at s.east s.z s.f) }
{
    let delta = longitude_of(projection.table, s);
    let beta = latitude_of(projection.table, s, radius);
    GeodeticPosition {
        latitude: to_geodetic(projection.table, projection.constants.series, beta),
        longitude: wrap(projection.set.lon0 + delta),
    }
}

// The answer for q, whose point of the sphere is s: the refusal, (φ0, lon0) at the false origin, else the position.
fn answer(
    projection: &Projection,
    q: Result<MapPoint, Refusal>,
    s: SpherePoint,
    radius: u64,
) -> Result<GeodeticPosition, Refusal>
    requires { radius ≡ root (squared_radius (point_at s.east s.z s.f)) }
    ensures { geodetic_answer result ≡ answer_of projection.now.set projection.now.constants (point_answer q) (point_at s.east s.z s.f) }
{
    match q? {
        MapPoint::FalseOrigin => Ok(GeodeticPosition {
            latitude: projection.set.lat0,
            longitude: projection.set.lon0,
        }),
        MapPoint::Away(_) => Ok(position(projection, s, radius)),
    }
}

// A position with an accepted set and its constants.
pub fn inverse_point(
    projection: &Projection,
    easting: i64,
    northing: i64,
) -> Result<GeodeticPosition, Refusal>
    ensures { geodetic_answer result ≡ inverse_of projection.now.set easting northing }
{
    let q = plane_point(projection, easting, northing);
    let r = reduced_or_zero(q);
    let s = sphere_point(projection.constants, r, scale(nearness(r)));
    let radius = root(squared_radius(s));
    answer(projection, q, s, radius)
}

// Two positions with the same set: the steps of `inverse_point`, with the roots of both found together.
pub fn inverse_points(
    projection: &Projection,
    at: [PlanePosition; 2],
) -> [Result<GeodeticPosition, Refusal>; 2]
    ensures { map geodetic_answer result ≡ map (inverse_at projection.now.set) at }
{
    let [at, at2] = at;
    let q = plane_point(projection, at.easting, at.northing);
    let q2 = plane_point(projection, at2.easting, at2.northing);
    let r = reduced_or_zero(q);
    let r2 = reduced_or_zero(q2);
    let [h, h2] = scales(nearness(r), nearness(r2));
    let s = sphere_point(projection.constants, r, h);
    let s2 = sphere_point(projection.constants, r2, h2);
    let [radius, radius2] = roots(squared_radius(s), squared_radius(s2));
    [
        answer(projection, q, s, radius),
        answer(projection, q2, s2, radius2),
    ]
}

// Any set, any position: the customer's call.
pub fn inverse(p: Parameters, easting: i64, northing: i64) -> Result<GeodeticPosition, Refusal>
    ensures { (geodetic_answer result ≡ inverse_of p easting northing) × (geodetic_told (geodetic_answer result) ≡ inverse_told p easting northing) }
{
    p.check()?;
    let table = SineTable::new();
    let projection = Projection::of_accepted(&table, p);
    inverse_point(&projection, easting, northing)
}

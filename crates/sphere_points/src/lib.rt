// The point of the unit sphere that a point of the map stands for, and its latitude and longitude from the
// centre's meridian.
#![tactic(auto)]

ghost use Rattle.std.specs.Prelude.{◌≡◌, cond, ◌-◌, ◌≤◌, pos, nat_abs, ◌≤ℤ◌};
ghost use Rattle.integers.specs.Root.{root};
ghost use Rattle.units.specs.Units.{right_angle, half_turn};
ghost use Rattle.constants.specs.InnerPrepared.{BoundedCentre};
ghost use Rattle.azimuthal_forward.specs.Steps.{H as scale_of};
ghost use Rattle.sphere_points.specs.Points.{point_at};
ghost use Rattle.sphere_points.specs.Sphere.{versine_of, G, point_of, latitude_of, longitude_of};
ghost use Rattle.sphere_points.specs.InnerSizes.{squared_radius};

use angles::angle;
use billionths::{difference, product, sum};
use constants::Constants;
use integers::{magnitude, near, signed};
use latitudes::Authalic;
use sine_table::SineTable;
use units::{HALF_TURN, UNIT};

// 2 U: the versed sine of the point opposite to the centre.
pub const TWO_UNITS: i64 = 2_000_000_000;

const TWO_UNITS_DIVISOR: u64 = 2_000_000_000;

// A point of the unit sphere in billionths, by document 01's names: east of the centre's meridian,
// z along the axis, f outwards at the centre's longitude. Each is small, which keeps the code within
// 64 bits.
#[derive(Clone, Copy)]
pub struct SpherePoint {
    pub east: i64,
    pub z: i64,
    pub f: i64,
    pub ghost east_size: { nat_abs east ≤ 2_000_000_000 },
    pub ghost z_size: { nat_abs z ≤ 3_000_000_000 },
    pub ghost f_size: { nat_abs f ≤ 3_000_000_000 },
}

// K = near((X² + Y²)/(2U)): the versed sine of the distance from the centre.
pub fn versine(x: i64, y: i64) -> i64
    requires { (nat_abs x ≤ 2_000_000_000) × (nat_abs y ≤ 2_000_000_000) }
    ensures { result ≡ versine_of x y }
{
    near(x * x + y * y, TWO_UNITS_DIVISOR)
}

// The point of the sphere of X, Y and K, with the H of that K.
pub fn point(k: Constants, x: i64, y: i64, versed: i64, h: u64) -> SpherePoint
    requires { BoundedCentre k × (nat_abs x ≤ 2_000_000_000) × (nat_abs y ≤ 2_000_000_000) × (pos 0 ≤ℤ versed) × (nat_abs versed ≤ 1_980_000_000) × (h ≡ scale_of (G versed)) }
    ensures { point_at result.east result.z result.f ≡ point_of k x y versed }
{
    let s0 = k.s0;
    let c0 = k.c0;
    let scale = h as i64;
    let up = UNIT - versed;
    let north = product(y, scale);
    SpherePoint {
        east: product(x, scale),
        z: sum(up, s0, north, c0),
        f: difference(up, c0, north, s0),
    }
}

// east² + f²: the square of a point's distance from the axis.
pub fn squared_radius(s: SpherePoint) -> u64
    ensures { result ≡ squared_radius (point_at s.east s.z s.f) }
{
    let east = magnitude(s.east);
    let f = magnitude(s.f);
    east * east + f * f
}

// β of a point whose distance from the axis is `radius`.
pub fn latitude_of(t: &SineTable, s: SpherePoint, radius: u64) -> Authalic
    requires { radius ≡ root (squared_radius (point_at s.east s.z s.f)) }
    ensures { result ≡ latitude_of (point_at s.east s.z s.f) }
{
    let z = s.z;
    Authalic(signed(z < 0, angle(t, radius, magnitude(z))))
}

// The size of an angle, taken from 180° on the far side of the axis. The side of a point can't be predicted, so
// this is a choice of two values, which takes no jump.
fn turned(far: bool, size: u64) -> u64
    requires { size ≤ right_angle }
    ensures { result ≡ cond far (half_turn - size) size }
{
    if far { HALF_TURN - size } else { size }
}

// Δ of a point: |Δ| is taken from 180° where f is negative, then gets the sign of east.
pub fn longitude_of(t: &SineTable, s: SpherePoint) -> i64
    ensures { result ≡ longitude_of (point_at s.east s.z s.f) }
{
    let east = s.east;
    let f = s.f;
    let near_side = angle(t, magnitude(f), magnitude(east));
    signed(east < 0, turned(f < 0, near_side))
}

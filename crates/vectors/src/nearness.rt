// Positions whose nearness G is exactly 20,000,000, which is accepted, and 19,999,999, refused 4.
// The answers expected are those of a model of the papers' steps that shares no code with the library.
ghost use Rattle.std.specs.Prelude.{◌≤◌, nat_abs};

use crate::examples::POLAR;
use crate::rows::Question::{Forward, Inverse};
use crate::rows::{refused_row, row};
use integers::near;
use latitudes::Geodetic;
use parameters::Parameters;
use sine_table::SineTable;
use trig::cosine;
use units::refusals::Refusal;

// On this sphere of 10,000 km, X and Y are E and N.
const SPHERE: Parameters = Parameters {
    a: 1_000_000_000,
    e2: 0,
    lat0: Geodetic(0),
    lon0: 0,
    false_easting: 0,
    false_northing: 0,
};

// The names of the rows of both nearnesses.
const LEAST: &str = "G 20000000";

const TOO_FAR: &str = "G 19999999";

// On the Equator of the sphere G is U + cosine(lon).
pub(crate) fn forward_on_sphere(rt: &impl Print, t: &SineTable) {
    let near_enough = 606_677_973;
    let _ = println!(rt; "cosine of {near_enough} = {}", cosine(t, near_enough));
    let right = Ok((1_989_974_850, 0));
    row(rt, LEAST, SPHERE, Forward(0, near_enough), right, 0);
    let too_far = 606_677_974;
    let _ = println!(rt; "cosine of {too_far} = {}", cosine(t, too_far));
    let q = Forward(0, too_far);
    refused_row(rt, TOO_FAR, SPHERE, q, Refusal::TooFar);
}

// The X of both positions on the plane.
const X: i64 = 1_989_974_871;

// K = near((X² + Y²)/(2U))
fn k(y: i64) -> i64
    requires { nat_abs y ≤ 1_000_000 }
{
    near(X * X + y * y, 2_000_000_000)
}

pub(crate) fn inverse_on_sphere(rt: &impl Print) {
    let near_enough = 113_083;
    let _ = println!(rt; "K = {}", k(near_enough));
    let right = Ok((2_332, 606_677_973));
    row(rt, LEAST, SPHERE, Inverse(X, near_enough), right, 0);
    let too_far = 121_605;
    let _ = println!(rt; "K = {}", k(too_far));
    let q = Inverse(X, too_far);
    refused_row(rt, TOO_FAR, SPHERE, q, Refusal::TooFar);
}

pub(crate) fn oblique(rt: &impl Print) {
    let p = Parameters::ETRS_LAEA;
    let least = "oblique G 20000000";
    let too_far = "oblique G 19999999";
    let q = Forward(-187_198_999, -544_884_351);
    row(rt, least, p, q, Ok((-825_813_960, 158_738_324)), 0);
    let q = Forward(-187_200_000, -544_884_142);
    refused_row(rt, too_far, p, q, Refusal::TooFar);
    let q = Inverse(497_749_301, -944_576_641);
    row(rt, least, p, q, Ok((-228_367_873, -616_734_127)), 0);
    let q = Inverse(499_661_427, -944_476_176);
    refused_row(rt, too_far, p, q, Refusal::TooFar);
}

pub(crate) fn polar(rt: &impl Print) {
    let least = "polar G 20000000";
    let too_far = "polar G 19999999";
    let q = Forward(-282_858_453, 18_000_000);
    row(rt, least, POLAR, q, Ok((1_224_657_064, 328_145_871)), 0);
    let q = Forward(-282_858_454, 18_000_000);
    refused_row(rt, too_far, POLAR, q, Refusal::TooFar);
    let q = Inverse(73_269_173, -1_265_739_431);
    row(rt, least, POLAR, q, Ok((-282_858_452, -348_073_370)), 0);
    let q = Inverse(75_180_552, -1_265_627_340);
    refused_row(rt, too_far, POLAR, q, Refusal::TooFar);
}

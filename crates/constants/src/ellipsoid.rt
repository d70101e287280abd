// The ellipsoid's shape: what is worked out from the eccentricity.
ghost use Rattle.std.specs.Prelude.{◌≡◌, true, ◌≤◌, nat_abs};
ghost use Rattle.units.specs.Units.{right_angle};
ghost use Rattle.parameters.specs.ParameterSet.{accepted_lat0};
ghost use Rattle.constants.specs.Derived.{to_mas, J, series_of, C0, m, D, e4 as e4Of, e6 as e6Of};

use billionths::{product, quotient, unit_root};
use integers::near;
use latitudes::{AuthalicSeries, Geodetic, Latitude};
use parameters::is_pole;
use sine_table::SineTable;
use units::UNIT;

// Powers of an accepted eccentricity, in billionths. Each is small, so that the sums are within 64 bits.
#[derive(Clone, Copy)]
pub(crate) struct Ellipsoid {
    pub e2: i64,
    pub e4: i64,
    pub e6: i64,
    pub ghost fourth: { e4 ≡ e4Of e2 },
    pub ghost sixth: { e6 ≡ e6Of e2 },
    pub ghost e2_size: { nat_abs e2 ≤ 10_000_000 },
    pub ghost e4_size: { nat_abs e4 ≤ 100_000 },
    pub ghost e6_size: { nat_abs e6 ≤ 1_000 },
}

impl Ellipsoid {
    pub fn new(e2: i64) -> Ellipsoid
        requires { nat_abs e2 ≤ 10_000_000 }
        ensures { result.e2 ≡ e2 }
    {
        let e4 = product(e2, e2);
        Ellipsoid {
            e2,
            e4,
            e6: product(e4, e2),
        }
    }

    // J: the authalic radius as a part of the semi-major axis.
    pub fn radius_ratio(self) -> i64
        ensures { result ≡ J self.e2 }
    {
        unit_root(UNIT - near(self.e2, 3) - near(self.e4, 15) - near(self.e6, 35))
    }

    // The coefficients of the authalic latitude's series.
    pub fn series(self) -> AuthalicSeries
        ensures { result ≡ series_of self.e2 }
    {
        let k2 = near(self.e2, 3) + near(31 * self.e4, 180) + near(59 * self.e6, 560);
        let k4 = near(17 * self.e4, 360) + near(61 * self.e6, 1260);
        let k6 = near(383 * self.e6, 45360);
        AuthalicSeries {
            k2: in_mas(k2),
            k4: in_mas(k4),
            k6: in_mas(k6),
        }
    }

    // m: the radius of the parallel of lat0 as a part of the semi-major axis.
    fn parallel_ratio(self, t: &SineTable, lat0: Geodetic) -> i64
        requires { nat_abs lat0.0 ≤ right_angle }
        ensures { result ≡ m self.e2 lat0 }
    {
        let on = lat0.sine_cosine(t);
        let s = on.sine;
        let v = UNIT - product(self.e2, product(s, s));
        quotient(on.cosine, unit_root(v))
    }

    // D: the ratio of the scales of the two axes; 1 at a pole. `c0` is the cosine of the authalic lat0.
    pub fn axis_ratio(self, t: &SineTable, lat0: Geodetic, j: i64, c0: i64) -> i64
        requires { (accepted_lat0 lat0 ≡ true) × (j ≡ J self.e2) × (c0 ≡ C0 self.e2 lat0) }
        ensures { result ≡ D self.e2 lat0 }
    {
        if is_pole(lat0) {
            return UNIT;
        }
        quotient(self.parallel_ratio(t, lat0), product(j, c0))
    }
}

// A coefficient in billionths, in mas.
#[tactic(auto, unfolding(crate::specs::Derived::to_mas))]
fn in_mas(k: i64) -> i64
    requires { nat_abs k ≤ 4_000_000 }
    ensures { result ≡ to_mas k }
{
    product(k, 206_264_806)
}

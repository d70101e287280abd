// What is worked out once for a set and handed down by value.
#![tactic(auto)]

mod ellipsoid;
pub mod projection;

ghost use Rattle.std.specs.Prelude.{◌≡◌};
ghost use Rattle.parameters.specs.ParameterSet.{set_refusal};
ghost use Rattle.constants.specs.Derived.{constants_of};

use billionths::{product, quotient};
use ellipsoid::Ellipsoid;
use latitudes::{AuthalicSeries, Latitude, to_authalic};
use parameters::Parameters;
use sine_table::SineTable;

// In document 01's names: S0, C0 in billionths; RD, RN in cm.
#[derive(Clone, Copy)]
pub struct Constants {
    pub series: AuthalicSeries,
    pub s0: i64,
    pub c0: i64,
    pub rd: i64,
    pub rn: i64,
}

// The constants of an accepted set.
pub fn constants_of(t: &SineTable, p: Parameters) -> Constants
    requires { set_refusal p ≡ 0 }
    ensures { result ≡ constants_of p }
{
    let lat0 = p.lat0;
    let ellipsoid = Ellipsoid::new(p.e2);
    let j = ellipsoid.radius_ratio();
    let k = ellipsoid.series();
    let beta0 = to_authalic(t, k, lat0);
    let centre = beta0.sine_cosine(t);
    let c0 = centre.cosine;
    let d = ellipsoid.axis_ratio(t, lat0, j, c0);
    let rq = product(p.a, j);
    Constants {
        series: k,
        s0: centre.sine,
        c0,
        rd: product(rq, d),
        rn: quotient(rq, d),
    }
}

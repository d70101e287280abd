// A power reading: document 02, e). Powers are in milliwatts as f64, and counted in whole nanowatts.
#![tactic(auto)]

ghost use Rattle.std.specs.Prelude.{◌≡◌};
ghost use Rattle.units.specs.Refusals.{refusal_number};
ghost use Rattle.readings.specs.Readings.{power_of, beyond_power, power_refusal, reading_refusal, nanowatts_of};

use floats::{is_finite, whole_units};
use integers::magnitude;
use units::MILLIWATT;
use units::refusals::Refusal;

// A power, or the mark that the receiver was overloaded with the last good power; both in milliwatts.
#[derive(Clone, Copy, Debug, PartialEq)]
pub enum Reading {
    Power(f64),
    Overloaded(f64),
}

// The limits of a power.
const LEAST_POWER: f64 = 0.0;

const GREATEST_POWER: f64 = 1_000.0;

// Whether a power is beyond its limits.
#[tactic(auto, using(crate::proofs::Powers::beyond_by_bits))]
fn is_beyond(x: f64) -> bool
    ensures { result ≡ beyond_power x }
{
    x < LEAST_POWER || GREATEST_POWER < x
}

// Refuses a power that is not finite, or beyond its limits.
#[tactic(auto, unfolding(crate::specs::Readings::power_refusal))]
fn check_power(x: f64) -> Result<(), Refusal>
    ensures { refusal_number result ≡ power_refusal x }
{
    Refusal::PowerNotFinite.unless(is_finite(x))?;
    Refusal::PowerOutOfLimits.unless(!is_beyond(x))
}

impl Reading {
    // The power that a reading of either kind carries.
    fn power(self) -> f64
        ensures { result ≡ power_of self }
    {
        match self {
            Reading::Power(milliwatts) | Reading::Overloaded(milliwatts) => milliwatts,
        }
    }

    // Refuses a reading whose power is refused.
    pub fn check(self) -> Result<(), Refusal>
        ensures { refusal_number result ≡ reading_refusal self }
    {
        check_power(self.power())
    }
}

// A power in whole nanowatts.
#[tactic(auto, using(crate::proofs::Powers::by_whole))]
pub fn nanowatts(x: f64) -> u64
    requires { power_refusal x ≡ 0 }
    ensures { result ≡ nanowatts_of x }
{
    magnitude(whole_units(MILLIWATT, x))
}

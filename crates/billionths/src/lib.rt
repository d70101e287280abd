// Arithmetic of numbers counted in billionths, rounded once.
#![tactic(auto)]

ghost use Rattle.std.specs.Prelude.{◌≡◌, ◌≤◌, pos, nat_abs, ◌+ℤ◌, ◌-ℤ◌, ◌*ℤ◌, ◌≤ℤ◌};
ghost use Rattle.integers.specs.Near.{near as nearOf};
ghost use Rattle.integers.specs.Root.{root as rootOf};
ghost use Rattle.units.specs.Units.{unit, U};

use integers::{near, root};
use units::{UNIT, UNIT_DIVISOR};

// near(a·b/U)
pub fn product(a: i64, b: i64) -> i64
    requires { (nat_abs a ≤ 2_000_000_000) × (nat_abs b ≤ 2_000_000_000) }
    ensures { result ≡ nearOf (a *ℤ b) unit }
{
    near(a * b, UNIT_DIVISOR)
}

// near((a·b + c·d)/U)
pub fn sum(a: i64, b: i64, c: i64, d: i64) -> i64
    requires { (nat_abs a ≤ 2_000_000_000) × (nat_abs b ≤ 2_000_000_000) × (nat_abs c ≤ 2_000_000_000) × (nat_abs d ≤ 2_000_000_000) }
    ensures { result ≡ nearOf (a *ℤ b +ℤ c *ℤ d) unit }
{
    near(a * b + c * d, UNIT_DIVISOR)
}

// near((a·b − c·d)/U)
pub fn difference(a: i64, b: i64, c: i64, d: i64) -> i64
    requires { (nat_abs a ≤ 2_000_000_000) × (nat_abs b ≤ 2_000_000_000) × (nat_abs c ≤ 2_000_000_000) × (nat_abs d ≤ 2_000_000_000) }
    ensures { result ≡ nearOf (a *ℤ b -ℤ c *ℤ d) unit }
{
    near(a * b - c * d, UNIT_DIVISOR)
}

// near(x·U/y), for y above 0.
pub fn quotient(x: i64, y: i64) -> i64
    requires { (nat_abs x ≤ 2_160_000_000) × (pos 1 ≤ℤ y) × (nat_abs y ≤ 2_000_000_000) }
    ensures { result ≡ nearOf (x *ℤ U) (nat_abs y) }
{
    near(x * UNIT, y as u64)
}

// root(x·U), for x from 0 to 2 U.
pub fn unit_root(x: i64) -> i64
    requires { (pos 0 ≤ℤ x) × (nat_abs x ≤ 2_000_000_000) }
    ensures { result ≡ pos (rootOf (nat_abs (x *ℤ U))) }
{
    root((x * UNIT) as u64) as i64
}

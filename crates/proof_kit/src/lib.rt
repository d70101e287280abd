// The proof kit: laws of signed integers for the proofs of the other crates, in proofs/. The functions here are its tests.
#![tactic(auto)]

ghost use Rattle.std.specs.Prelude.{◌≡◌, ◌+◌, ◌/◌, ◌≤◌, pos, negsuc, ◌+ℤ◌, ◌-ℤ◌, ◌*ℤ◌, neg_ℤ, nat_abs, ◌≤ℤ◌};

// One coordinate of a point turned by an angle with cosine c and sine s.
fn turned(c: i64, b: i64, s: i64, v: i64) -> i64
    requires { (nat_abs c ≤ 1_000_000_000) × (nat_abs b ≤ 1_000_000_000) × (nat_abs s ≤ 1_000_000_000) × (nat_abs v ≤ 1_000_000_000) }
    ensures { result ≡ c *ℤ b -ℤ s *ℤ v }
{
    c * b - s * v
}

// The quotient of x by d, to the nearest whole number, halves up.
fn nearest(x: i64, d: i64) -> i64
    requires { (pos 0 ≤ℤ x) × (nat_abs x ≤ 1_000_000_000) × (pos 1 ≤ℤ d) × (nat_abs d ≤ 1_000_000_000) }
    ensures { result ≡ pos ((nat_abs x + nat_abs d / 2) / nat_abs d) }
{
    (x + d / 2) / d
}

// The size of x. By hand, since it is what the kit's laws of a signed `if` are tried on: `abs` would try none of them.
fn magnitude(x: i64) -> i64
    requires { nat_abs x ≤ 9_223_372_036_854_775_807 }
    ensures { result ≡ pos (nat_abs x) }
{
    if x < 0 { -x } else { x }
}

// Eight operations, one inside the other.
fn chain(a: i64, b: i64, c: i64) -> i64
    requires { (nat_abs a ≤ 1_000) × (nat_abs b ≤ 1_000) × (nat_abs c ≤ 1_000) }
    ensures { result ≡ neg_ℤ (((a *ℤ b +ℤ c) *ℤ a -ℤ pos 7) *ℤ (b +ℤ c) *ℤ negsuc 2 +ℤ a) }
{
    -(((a * b + c) * a - 7) * (b + c) * (-3) + a)
}

// A product with a u64, and back.
fn scaled(x: u64, y: i64) -> u64
    requires { (x ≤ 1_000_000_000) × (pos 0 ≤ℤ y) × (nat_abs y ≤ 1_000_000_000) }
    ensures { pos result ≡ pos x *ℤ y }
{
    ((x as i64) * y) as u64
}

// How far a is from b.
fn distance(a: i64, b: i64) -> i64
    requires { (nat_abs a ≤ 1_000_000_000) × (nat_abs b ≤ 1_000_000_000) }
    ensures { result ≡ pos (nat_abs (a -ℤ b)) }
{
    magnitude(a - b)
}

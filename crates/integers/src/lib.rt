// The two words of document 01 on whole numbers: rounded division and the integer root.
#![tactic(auto)]

ghost use Rattle.std.specs.Prelude.{◌≡◌, ◌+◌, ◌-◌, ◌/◌, ◌<◌, ◌^◌, [], ◌∷◌, nat_abs};
ghost use Rattle.integers.specs.Near.{near, nearest, signed};
ghost use Rattle.integers.specs.Root.{root};
ghost use Rattle.integers.specs.Rounds.{next_digit};

pub mod search;

// The size of n; that of the least i64 is 2^63, which a u64 holds.
pub fn magnitude(n: i64) -> u64
    ensures { result ≡ nat_abs n }
{
    n.unsigned_abs()
}

// By how much a exceeds b; 0 where it does not.
pub fn excess(a: u64, b: u64) -> u64
    ensures { result ≡ a - b }
{
    a.saturating_sub(b)
}

// The number of this size and sign.
pub fn signed(negative: bool, size: u64) -> i64
    requires { size < 2 ^ 63 }
    ensures { result ≡ signed negative size }
{
    let z = size as i64;
    if negative { -z } else { z }
}

// near(n/d) for n not negative.
#[tactic(auto, using(crate::proofs::Rounding::nearest_halved))]
pub fn nearest(n: u64, d: u64) -> u64
    requires { (0 < d) × (n + d / 2 < 2 ^ 64) }
    ensures { result ≡ nearest n d }
{
    (n + d / 2) / d
}

// near(n/d).
#[tactic(auto, using(crate::proofs::Rounding::nearest_le), unfolding(crate::specs::Near::near))]
pub fn near(n: i64, d: u64) -> i64
    requires { (0 < d) × (nat_abs n + d / 2 < 2 ^ 63) }
    ensures { result ≡ near n d }
{
    signed(n < 0, nearest(magnitude(n), d))
}

// root(n), by its binary digits from the highest on. A round tries one digit; `bit`, the square of what that
// digit is worth, is at most 2^62 and loses two places in each round, so there are at most 32 rounds. Numbers
// below 2^60 need only 30. A contract does not say how an answer is found: scripts/root-operations reads this
// body and those of `roots` and `next_digit` for anything but shifts, additions and comparisons. So the loops
// go by `bit`, which is shifted and not counted, and the larger of two numbers is found by `if`. One function
// over an array of numbers was tried for both: for one number it takes a third longer, since it works out
// the trial square anew in each round.
pub fn root(n: u64) -> u64
    ensures { result ≡ root n }
{
    let mut bit = if n < 1u64 << 60 {
        1u64 << 58
    } else {
        1u64 << 62
    };
    let mut square = 0u64;
    let mut r = 0u64;
    let mut trial = bit;
    // With z for what the digits taken are worth and w for 2 to the power of how many are left: r is z·w,
    // square is z² and at most n, n is below (z + w)², z + w is at most 2^32, bit is w²/4 rounded down, and
    // trial is square + r + bit.
    while 0 < bit {
        let next = bit >> 2;
        let half = r >> 1;
        if n < trial {
            trial = square + half + next;
            r = half;
        } else {
            square = trial;
            trial = trial + bit + half + next;
            r = half + bit;
        }
        bit = next;
    }
    r
}

// What `root` holds of the digits taken, but for the trial square, which is square + r + bit.
#[derive(Clone, Copy)]
struct TakenDigits {
    square: u64,
    r: u64,
}

// One round for n: the next digit is taken where the trial square is at most n.
#[tactic(auto, using(std::proofs::lemmas::Bool::Decides::nat_tests), unfolding(crate::specs::Rounds::next_digit))]
fn next_digit(n: u64, bit: u64, d: TakenDigits) -> TakenDigits
    requires { d.square + d.r + bit < 2 ^ 64 }
    ensures { result ≡ next_digit n bit d }
{
    let trial = d.square + d.r + bit;
    let half = d.r >> 1;
    if trial <= n {
        TakenDigits {
            square: trial,
            r: half + bit,
        }
    } else {
        TakenDigits {
            square: d.square,
            r: half,
        }
    }
}

// root(n) and root(m), digit by digit as `root` finds one, in one loop: neither waits for the other's
// comparisons. The larger number says how many rounds there are.
pub fn roots(n: u64, m: u64) -> [u64; 2]
    ensures { result ≡ root n ∷ root m ∷ [] }
{
    let larger = if n < m { m } else { n };
    let mut bit = if larger < 1u64 << 60 {
        1 << 58
    } else {
        1 << 62
    };
    let mut first = TakenDigits { square: 0, r: 0 };
    let mut second = TakenDigits { square: 0, r: 0 };
    while bit != 0 {
        first = next_digit(n, bit, first);
        second = next_digit(m, bit, second);
        bit = bit >> 2;
    }
    [first.r, second.r]
}

// The greatest number that passes a test, found by a recursion on the width of the span that is left.
ghost use Rattle.std.specs.Prelude.{ℕ, Bool, ◌≡◌, ◌^◌, ◌<◌, ◌≤◌};
ghost use Rattle.integers.specs.Greatest.{greatest};
ghost use Rattle.integers.specs.InnerSearch.{Threshold, bracketed, Span, About};

use crate::excess;

// The margin that is tried after another is WIDENING times it and WIDENED_BY more.
const WIDENING: u64 = 16;

const WIDENED_BY: u64 = 4;

// A test of the numbers from 0 to `most`: 0 passes it, and it stays false once it is false.
pub trait Test {
    ghost most: { ℕ };

    ghost passes: { Self → ℕ → Bool };

    // The last number that is tested. No constant: a type that borrows has none with a clause.
    fn most(&self) -> u64
        ensures { result ≡ most };

    // Whether n passes.
    fn passes(&self, n: u64) -> bool
        requires { n ≤ most }
        ensures { result ≡ passes self.now n };

    // leaves room in 64 bits for a margin that is widened
    ghost room: { most < 2 ^ 59 };

    ghost threshold: { (test : Self) → Threshold (passes test) most };
}

// The greatest number up to `high` that passes, where `low` does: halves the span until one is left.
pub fn search<T: Test>(test: &T, low: u64, high: u64) -> u64
    requires { Span (T.passes test.now) T.most low high }
    ensures { result ≡ greatest (T.passes test.now) high }
{
    if low == high {
        return low;
    }
    let mid = high - (high - low) / 2;
    if test.passes(mid) {
        search(test, mid, high)
    } else {
        search(test, low, mid - 1)
    }
}

// Whether the greatest number that passes lies from `low` to `high`: `low` passes, and the number after
// `high` does not or is past the last.
fn is_bracketed<T: Test>(test: &T, low: u64, high: u64) -> bool
    requires { (low ≤ T.most) × (high ≤ T.most) }
    ensures { result ≡ bracketed (T.passes test.now) T.most low high }
{
    test.passes(low) && (high == test.most() || !test.passes(high + 1))
}

// The greatest number that passes: searches the span of this margin about the estimate, or where that
// does not hold it a wider one, up to all of them.
pub fn search_near<T: Test>(test: &T, estimate: u64, margin: u64) -> u64
    requires { About T.most estimate margin }
    ensures { result ≡ greatest (T.passes test.now) T.most }
{
    let most = test.most();
    let low = excess(estimate, margin);
    let high = most - excess(most, estimate + margin);
    if is_bracketed(test, low, high) {
        return search(test, low, high);
    }
    search_near(test, estimate, WIDENING * margin + WIDENED_BY)
}

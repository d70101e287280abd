// Holds doubles, rows and lists to those expected, by their bits.
ghost use Rattle.std.specs.Prelude.{◌≡◌, ◌&&◌, map, ◌==◌};
ghost use Rattle.point_lists.specs.Lists.{list_answered, list_told};
ghost use Rattle.judging.specs.InnerDoubles.{bits_of, same_bits, element_row, row_told, alike, answer_of, is_told, digest_with, digest_with_all, digest_of};

use floats::is_finite;
use units::refusals::Refusal;

// What stands for a double that is not finite.
const OTHER_BITS: u64 = 0x7FF8_0000_0000_0000;

// A finite double's bits; NaN and the infinities have those of no finite one.
#[tactic(auto, using(floats::proofs::Bounds::finite_number))]
pub fn bits(x: f64) -> u64
    ensures { result ≡ bits_of x }
{
    if is_finite(x) {
        x.to_bits()
    } else {
        OTHER_BITS
    }
}

// Whether two pairs of values are alike in every bit.
pub fn have_same_bits(found: (f64, f64), right: (f64, f64)) -> bool
    ensures { result ≡ same_bits found right }
{
    bits(found.0) == bits(right.0) && bits(found.1) == bits(right.1)
}

// An element of the lists that a call fills: its mark, 0 or a refusal number, and its two values.
#[derive(Clone, Copy)]
pub struct Element {
    pub mark: u8,
    pub values: (f64, f64),
}

// As a call fills the lists for an answer.
impl From<Result<(f64, f64), Refusal>> for Element {
    ghost from_gives = { λ answer given. element_row given ≡ row_told answer };

    fn from(answer: Result<(f64, f64), Refusal>) -> Element {
        match answer {
            Ok(values) => Element { mark: 0, values },
            Err(refusal) => Element {
                mark: refusal.number(),
                values: (0.0, 0.0),
            },
        }
    }
}

// Whether two elements have the same mark, and values alike in every bit.
pub fn are_alike(found: Element, right: Element) -> bool
    ensures { result ≡ alike (element_row found) (element_row right) }
{
    found.mark == right.mark && have_same_bits(found.values, right.values)
}

// What a list call answers: its count, or its refusal number.
#[derive(Clone, Copy)]
pub enum ListAnswer {
    Count(u64),
    Refused(u8),
}

impl From<Result<u64, Refusal>> for ListAnswer {
    ghost from_gives = { λ answer given. answer_of given ≡ list_answered answer };

    fn from(answer: Result<u64, Refusal>) -> ListAnswer {
        match answer {
            Ok(count) => ListAnswer::Count(count),
            Err(refusal) => ListAnswer::Refused(refusal.number()),
        }
    }
}

// Whether a list call answered with this refusal number, 0 for none, and this count, 0 where it is refused.
pub fn is_told(answer: ListAnswer, refusal: u8, count: u64) -> bool
    ensures { result ≡ is_told (answer_of answer) refusal count }
{
    match answer {
        ListAnswer::Count(found) => 0 == refusal && found == count,
        ListAnswer::Refused(number) => number == refusal && 0 == count,
    }
}

// Whether a list call answered with the refusal or the count expected.
pub fn is_answered(answer: Result<u64, Refusal>, right: Result<u64, Refusal>) -> bool
    ensures { result ≡ is_told (list_answered answer) (list_told (list_answered right)).refusal (list_told (list_answered right)).count }
{
    let answer = ListAnswer::from(answer);
    match right {
        Ok(count) => is_told(answer, 0, count),
        Err(refusal) => is_told(answer, refusal.number(), 0),
    }
}

// The sum of numbers, and the sum of the sums on the way: they turn with each number and with each place.
#[derive(Clone, Copy, Debug, PartialEq, Eq)]
pub struct Digest {
    pub sum: u64,
    pub sums: u64,
}

impl Digest {
    fn with(self, n: u64) -> Digest
        ensures { result ≡ digest_with self n }
    {
        let sum = self.sum.wrapping_add(n);
        Digest {
            sum,
            sums: self.sums.wrapping_add(sum),
        }
    }

    fn with_doubles(self, xs: &[f64]) -> Digest
        ensures { result ≡ digest_with_all self (map bits_of xs.now) }
    {
        xs.iter().fold(self, |found, x| found.with(bits(*x)))
    }

    fn with_marks(self, marks: &[u8]) -> Digest
        ensures { result ≡ digest_with_all self marks.now }
    {
        marks
            .iter()
            .fold(self, |found, mark| found.with(u64::from(*mark)))
    }
}

// The digest of the outputs of a list call.
pub fn digest_of(leading: &[f64], trailing: &[f64], marks: &[u8]) -> Digest
    ensures { result ≡ digest_of leading.now trailing.now marks.now }
{
    Digest { sum: 0, sums: 0 }
        .with_doubles(leading)
        .with_doubles(trailing)
        .with_marks(marks)
}

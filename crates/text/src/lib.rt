// Bytes of ASCII text: whole numbers read from them and written into them.
#![tactic(auto)]

ghost use Rattle.std.specs.Prelude.{◌≡◌, ◌+◌, ◌++◌, ◌≤◌, length, MatchOption};
ghost use Rattle.arrayvec.specs.ArrayString.{array_string_len};
ghost use Rattle.text.specs.Cutting.{index_of, IsCut};
ghost use Rattle.text.specs.Numbers.{numeral, leading_zero, unsigned_of, number_of, number_text, labelled, pair_text};
ghost use Rattle.text.specs.Pasting.{Put};

use arrayvec::ArrayString;
use integers::signed;
use itoa::Buffer;
use memchr::memchr;

// The bytes before the first b and those after it; nothing where b stands nowhere.
#[tactic(auto, using(crate::proofs::Searching::cut_found, crate::proofs::Searching::index_missing))]
pub fn split_once(bytes: &[u8], b: u8) -> Option<(&[u8], &[u8])>
    ensures cases { MatchOption result (index_of b bytes.now ≡ length bytes.now) (λ parts. IsCut b bytes.now parts.0.now parts.1.now) }
{
    let at = memchr(b, bytes)?;
    Some((&bytes[..at], &bytes[at + 1..]))
}

// The most digits that are read; a number of so many fits an i64.
const DIGITS_MOST: usize = 10;

// Whether a 0 stands before other digits.
pub fn has_leading_zero(digits: &[u8]) -> bool
    ensures { result ≡ leading_zero digits.now }
{
    matches!(digits, [b'0', _, ..])
}

// The number of one to ten digits, with the sign that stood before them.
#[tactic(auto, using(crate::proofs::Numerals::unsigned_empty, crate::proofs::Numerals::unsigned_long, crate::proofs::Numerals::unsigned_other))]
pub fn read_unsigned(negative: bool, digits: &[u8]) -> Option<i64>
    ensures { numeral result ≡ unsigned_of negative digits.now }
{
    if digits.is_empty() || DIGITS_MOST < digits.len() {
        return None;
    }
    let mut value: u64 = 0;
    for &b in digits {
        if !b.is_ascii_digit() {
            return None;
        }
        value = 10 * value + (b - b'0') as u64;
    }
    Some(signed(negative, value))
}

// The number of one to ten digits, with or without a minus before them.
#[tactic(auto, using(crate::proofs::Numerals::number_minus, crate::proofs::Numerals::number_plain))]
pub fn read_number(bytes: &[u8]) -> Option<i64>
    ensures { numeral result ≡ number_of bytes.now }
{
    match bytes.strip_prefix(b"-") {
        Some(digits) => read_unsigned(true, digits),
        None => read_unsigned(false, bytes),
    }
}

// Writes bytes at an index and answers the index after them: the answers of a piece of input go, one after the other,
// into bytes that the caller lends.
pub fn put_bytes(out: &mut [u8], at: usize, bytes: &[u8]) -> usize
    requires { at + length bytes.now ≤ length out.old }
    ensures { Put out.old at bytes.now out.new result }
{
    let end = at + bytes.len();
    out[at..end].copy_from_slice(bytes);
    end
}

// Appends a number, without leading zeros.
#[tactic(auto, using(crate::proofs::Printing::number_printed))]
pub fn push_number<const N: usize>(text: &mut ArrayString<N>, z: i64)
    requires { array_string_len text.old + length (number_text z) ≤ N }
    ensures { text.new.bytes ≡ text.old.bytes ++ number_text z }
{
    let mut digits = Buffer::new();
    text.push_str(digits.format(z));
}

// Appends a label and a number.
pub fn push_labelled<const N: usize>(text: &mut ArrayString<N>, label: &str, z: i64)
    requires { array_string_len text.old + length (labelled label.now z) ≤ N }
    ensures { text.new.bytes ≡ text.old.bytes ++ labelled label.now z }
{
    text.push_str(label);
    push_number(text, z);
}

// Appends two numbers, each with its label before it.
pub fn push_pair<const N: usize>(
    text: &mut ArrayString<N>,
    first: &str,
    x: i64,
    second: &str,
    y: i64,
)
    requires { array_string_len text.old + length (pair_text first.now x second.now y) ≤ N }
    ensures { text.new.bytes ≡ text.old.bytes ++ pair_text first.now x second.now y }
{
    push_labelled(text, first, x);
    push_labelled(text, second, y);
}

// What a line of the program asks for: document 01, "The program".
#![tactic(auto)]

ghost use Rattle.std.specs.Prelude.{◌≡◌};
ghost use Rattle.text.specs.Numbers.{numeral};
ghost use Rattle.requests.specs.Requests.{asked, by_letter, by_fields, request_of};

use text::{read_number, split_once};

// How many bytes of a line decide what it asks for.
pub const KEPT_MOST: usize = 26;

// What a line asks for, with its latitude and longitude in mas, or its easting and northing in cm.
#[derive(Clone, Copy, Debug, PartialEq, Eq)]
pub enum Request {
    Forward(i64, i64),
    Inverse(i64, i64),
}

// What a letter and two numbers ask for.
fn by_letter(letter: u8, first: Option<i64>, second: Option<i64>) -> Option<Request>
    ensures { asked result ≡ by_letter letter (numeral first) (numeral second) }
{
    let (x, y) = first.zip(second)?;
    match letter {
        b'F' => Some(Request::Forward(x, y)),
        b'I' => Some(Request::Inverse(x, y)),
        _ => None,
    }
}

// What a letter and the fields after it ask for.
#[tactic(auto, using(crate::proofs::Requests::fields_uncut))]
fn by_fields(letter: u8, fields: &[u8]) -> Option<Request>
    ensures { asked result ≡ by_fields letter fields.now }
{
    let (first, second) = split_once(fields, b' ')?;
    by_letter(letter, read_number(first), read_number(second))
}

// What a line of any bytes asks for; nothing where it is of another form.
#[tactic(auto, unfolding(crate::specs::Requests::request_of))]
pub fn read_request(line: &[u8]) -> Option<Request>
    ensures { asked result ≡ request_of line.now }
{
    match line {
        [letter, b' ', fields @ ..] => by_fields(*letter, fields),
        _ => None,
    }
}

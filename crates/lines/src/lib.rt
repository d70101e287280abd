// One line of text in, one line of answer out, for ETRS-LAEA in whole units: document 01, "The program".
#![tactic(auto)]

ghost use Rattle.std.specs.Prelude.{◌≡◌, ◌+◌, ◌≤◌, [], ◌∷◌, ◌++◌, length};
ghost use Rattle.text.specs.Ascii.{newline};
ghost use Rattle.text.specs.Pasting.{Put};
ghost use Rattle.parameters.specs.ParameterSet.{etrs_laea};
ghost use Rattle.azimuthal_forward.specs.Answer.{plane_answer};
ghost use Rattle.azimuthal_inverse.specs.Answer.{geodetic_answer};
ghost use Rattle.requests.specs.Requests.{asked};
ghost use Rattle.replies.specs.Replies.{replied, reply_text};
ghost use Rattle.lines.specs.Lines.{plane_reply, position_reply, reply_of, answer_line, answer_most};

use arrayvec::ArrayString;
use azimuthal_forward::{GeodeticPosition, PlanePosition, forward_point};
use azimuthal_inverse::inverse_point;
use constants::projection::Projection;
use latitudes::Geodetic;
use parameters::Parameters;
use replies::{Reply, push_reply};
use requests::{Request, read_request};
use sine_table::SineTable;
use text::put_bytes;
use units::refusals::Refusal;

// The most bytes of an answer's line, with its newline.
pub const ANSWER_MOST: usize = 32;

// The projection that lines are answered for.
pub fn etrs_laea(table: &SineTable) -> Projection<'_>
    ensures { result.set ≡ etrs_laea }
{
    Projection::new(table, Parameters::etrs_laea()).unwrap()
}

fn plane_reply(answer: Result<PlanePosition, Refusal>) -> Reply
    ensures { replied result ≡ plane_reply (plane_answer answer) }
{
    match answer {
        Ok(position) => Reply::Plane(position.easting, position.northing),
        Err(refusal) => Reply::Refused(refusal),
    }
}

fn position_reply(answer: Result<GeodeticPosition, Refusal>) -> Reply
    ensures { replied result ≡ position_reply (geodetic_answer answer) }
{
    match answer {
        Ok(position) => Reply::Position(position.latitude.0, position.longitude),
        Err(refusal) => Reply::Refused(refusal),
    }
}

// The reply to a request, or to a line of another form.
#[tactic(auto, unfolding(crate::specs::Lines::reply_of))]
fn reply_to(projection: &Projection, request: Option<Request>) -> Reply
    requires { projection.now.set ≡ etrs_laea }
    ensures { replied result ≡ reply_of (asked request) }
{
    match request {
        Some(Request::Forward(lat, lon)) => {
            plane_reply(forward_point(projection, Geodetic(lat), lon))
        }
        Some(Request::Inverse(easting, northing)) => {
            position_reply(inverse_point(projection, easting, northing))
        }
        None => Reply::Bad,
    }
}

// The answer's line to a request.
fn answer_line(projection: &Projection, request: Option<Request>) -> ArrayString<ANSWER_MOST>
    requires { projection.now.set ≡ etrs_laea }
    ensures { result.bytes ≡ reply_text (reply_of (asked request)) ++ (newline ∷ []) }
{
    let mut text = ArrayString::new();
    push_reply(&mut text, reply_to(projection, request));
    text.push_str("\n");
    text
}

// The answer's line to a line, at an index of out, and the index after it. A line of another form is answered at once.
#[tactic(auto, unfolding(crate::specs::Lines::answer_line, crate::specs::Lines::answer_text, crate::specs::Lines::reply_of))]
pub fn answer_at(projection: &Projection, line: &[u8], out: &mut [u8], at: usize) -> usize
    requires set { projection.now.set ≡ etrs_laea }
    requires room { at + answer_most ≤ length out.old }
    ensures { Put out.old at (answer_line line.now) out.new result }
{
    match read_request(line) {
        None => put_bytes(out, at, b"bad line\n"),
        request => put_bytes(out, at, answer_line(projection, request).as_bytes()),
    }
}

// Any line of any bytes: the customer's call. The bytes past the answer stay as they were.
pub fn answer(line: &[u8], out: &mut [u8; ANSWER_MOST]) -> usize
    ensures { Put out.old 0 (answer_line line.now) out.new result }
{
    let table = SineTable::new();
    answer_at(&etrs_laea(&table), line, out, 0)
}

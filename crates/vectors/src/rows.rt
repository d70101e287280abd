// A row runs one call and prints its name, what was asked, the answer, what was expected and how far off it is. It gives
// back its verdict.
ghost use Rattle.std.specs.Prelude.{◌≡◌};
ghost use Rattle.units.specs.Refusals.{number};
ghost use Rattle.units.specs.Answers.{refused};
ghost use Rattle.gaps.specs.InnerGaps.{told};
ghost use Rattle.vectors.specs.InnerRows.{told_by, is_near, is_near_on_ground};

use crate::rows::Question::{Forward, Inverse};
use azimuthal_forward::forward;
use azimuthal_inverse::inverse;
use gaps::{Answer, Gaps, Told, gaps_of, is_right, on_ground};
use latitudes::Geodetic;
use parameters::Parameters;
use printing::verdict;
use std::fmt;
use units::refusals::Refusal;

// What is asked of a set.
#[derive(Clone, Copy)]
pub(crate) enum Question {
    // The easting and northing of a latitude and a longitude.
    Forward(i64, i64),
    // The latitude and longitude of an easting and a northing.
    Inverse(i64, i64),
}

impl Question {
    fn answer(self, p: Parameters) -> Answer
        ensures { told result ≡ told_by p self }
    {
        match self {
            Forward(lat, lon) => {
                forward(p, Geodetic(lat), lon).map(|at| (at.easting, at.northing))
            }
            Inverse(easting, northing) => {
                inverse(p, easting, northing).map(|at| (at.latitude.0, at.longitude))
            }
        }
    }

    // The unit of the answer's values.
    fn unit(self) -> &'static str {
        match self {
            Forward(..) => "cm",
            Inverse(..) => "mas",
        }
    }
}

impl fmt::Display for Question {
    fn fmt<W: fmt::Write>(&self, f: &mut fmt::Formatter<W>) -> fmt::Result {
        match *self {
            Forward(lat, lon) => write!(f, "forward {lat} {lon}"),
            Inverse(easting, northing) => write!(f, "inverse {easting} {northing}"),
        }
    }
}

// An answer to a question, as a row shows it.
#[derive(Clone, Copy)]
struct Shown(Question, Answer);

impl fmt::Display for Shown {
    fn fmt<W: fmt::Write>(&self, f: &mut fmt::Formatter<W>) -> fmt::Result {
        match *self {
            Shown(Forward(..), Ok((easting, northing))) => write!(f, "E {easting} N {northing}"),
            Shown(Inverse(..), Ok((lat, lon))) => write!(f, "P {lat} {lon}"),
            Shown(_, Err(refusal)) => write!(f, "{refusal}"),
        }
    }
}

// The row up to what was expected.
fn run(rt: &impl Print, name: &str, p: Parameters, question: Question, right: Answer) -> Answer
    ensures { told result ≡ told_by p question }
{
    let found = question.answer(p);
    let shown = Shown(question, found);
    let expected = Shown(question, right);
    let _ = print!(rt; "{name} {question}: {shown}, expected {expected}");
    found
}

fn show_gaps(rt: &impl Print, off: Gaps, unit: &str, most: u64) {
    let Gaps { first, second } = off;
    let _ = print!(rt; ", off by {first} and {second} {unit}, at most {most}");
}

// Either value may be off by at most so many cm forward, and so many mas inverse.
pub(crate) fn row(
    rt: &impl Print,
    name: &str,
    p: Parameters,
    question: Question,
    right: Answer,
    most: u64,
) -> bool
    ensures { result ≡ is_near most (told_by p question) (told right) }
{
    let found = Told::from(run(rt, name, p, question, right));
    let right = Told::from(right);
    let off = gaps_of(found, right);
    show_gaps(rt, off, question.unit(), most);
    verdict(rt, is_right(found, right, off, most))
}

// Latitude and longitude may be off by at most so many cm on the ground; `cosine` is that of the latitude expected.
pub(crate) fn ground_row(
    rt: &impl Print,
    name: &str,
    p: Parameters,
    question: Question,
    right: Answer,
    cosine: i64,
    most: u64,
) -> bool
    ensures { result ≡ is_near_on_ground p.a cosine most (told_by p question) (told right) }
{
    let found = Told::from(run(rt, name, p, question, right));
    let right = Told::from(right);
    let off = on_ground(p.a, cosine, gaps_of(found, right));
    show_gaps(rt, off, "cm on the ground", most);
    verdict(rt, is_right(found, right, off, most))
}

pub(crate) fn refused_row(
    rt: &impl Print,
    name: &str,
    p: Parameters,
    question: Question,
    refusal: Refusal,
) -> bool
    ensures { result ≡ is_near 0 (told_by p question) (refused (number refusal)) }
{
    let right = Err(refusal);
    let found = Told::from(run(rt, name, p, question, right));
    let right = Told::from(right);
    verdict(rt, is_right(found, right, gaps_of(found, right), 0))
}

// The centre goes to the false origin and comes back, to the last unit.
pub(crate) fn there_and_back(rt: &impl Print, name: &str, p: Parameters) {
    let centre = (p.lat0.0, p.lon0);
    let origin = (p.false_easting, p.false_northing);
    row(rt, name, p, Forward(centre.0, centre.1), Ok(origin), 0);
    row(rt, name, p, Inverse(origin.0, origin.1), Ok(centre), 0);
}

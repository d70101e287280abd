// A row of one point in degrees or metres: its name, what was asked, the answer and what was expected, doubles by their
// bits. It gives back its verdict.
ghost use Rattle.std.specs.Prelude.{◌≡◌};
ghost use Rattle.judging.specs.InnerDoubles.{alike, row_told};
ghost use Rattle.row_lists.specs.InnerRows.{row_of};
ghost use Rattle.point_vectors.specs.InnerRows.{is_forward};

use crate::doubles::{Bits, Pair};
use judging::doubles::{Element, are_alike};
use pairs::{GeodeticPair, PlanePair};
use parameters::Parameters;
use points::{forward_degrees, inverse_metres};
use printing::{Shown, verdict};
use std::fmt;
use units::refusals::Refusal;

// From degrees to metres, and back.
#[derive(Clone, Copy)]
pub(crate) enum Direction {
    Forward,
    Inverse,
}

// By what it goes from.
impl fmt::Display for Direction {
    fn fmt<W: fmt::Write>(&self, f: &mut fmt::Formatter<W>) -> fmt::Result {
        f.write_str(match self {
            Direction::Forward => "degrees",
            Direction::Inverse => "metres",
        })
    }
}

// Two values, or a refusal.
pub(crate) type Answer = Result<(f64, f64), Refusal>;

fn show(rt: &impl Print, found: Answer, right: Answer) {
    let shown = Shown(found.map(Pair));
    let expected = Shown(right.map(Pair));
    let _ = print!(rt; ": {shown}, expected {expected}");
}

fn answer(direction: Direction, p: Parameters, x: f64, y: f64) -> Answer
    ensures { row_told result ≡ row_of (is_forward direction) p x y }
{
    match direction {
        Direction::Forward => {
            let at = GeodeticPair {
                latitude: x,
                longitude: y,
            };
            forward_degrees(p, at).map(|at| (at.first, at.second))
        }
        Direction::Inverse => {
            let at = PlanePair {
                first: x,
                second: y,
            };
            inverse_metres(p, at).map(|at| (at.latitude, at.longitude))
        }
    }
}

pub(crate) fn row(
    rt: &impl Print,
    name: &str,
    direction: Direction,
    p: Parameters,
    x: f64,
    y: f64,
    right: Answer,
) -> bool
    ensures { result ≡ alike (row_of (is_forward direction) p x y) (row_told right) }
{
    let _ = print!(rt; "{name} {direction} {} {}", Bits(x), Bits(y));
    let found = answer(direction, p, x, y);
    show(rt, found, right);
    verdict(rt, are_alike(Element::from(found), Element::from(right)))
}

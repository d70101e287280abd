// Lists with every refusal of a point in them, element by element.
ghost use Rattle.std.specs.Prelude.{◌≡◌, ◌<◌};
ghost use Rattle.row_lists.specs.InnerRows.{row_at};
ghost use Rattle.judging.specs.InnerDoubles.{alike, element_row, row_told};

use crate::doubles::Pair;
use crate::list_rows::{MARK, NUMBER, count_row, run};
use crate::point_rows::Answer;
use crate::point_rows::Direction::{self, Forward, Inverse};
use judging::doubles::{Element, are_alike};
use parameters::Parameters;
use printing::verdict;
use std::fmt;
use units::refusals::Refusal;

// An element as a row shows it.
#[derive(Clone, Copy)]
struct Shown(Element);

impl fmt::Display for Shown {
    fn fmt<W: fmt::Write>(&self, f: &mut fmt::Formatter<W>) -> fmt::Result {
        match self.0 {
            Element { mark: 0, values } => write!(f, "{}", Pair(values)),
            Element { mark, .. } => write!(f, "refused {mark}"),
        }
    }
}

type Numbers = [f64; 8];

// The element at a place of three lists.
fn element_at(i: usize, marks: &[u8; 8], leading: &Numbers, trailing: &Numbers) -> Element
    requires { i < 8 }
    ensures { element_row result ≡ row_at i leading.now trailing.now marks.now }
{
    Element {
        mark: marks[i],
        values: (leading[i], trailing[i]),
    }
}

fn element_line(rt: &impl Print, place: usize, found: Element, right: Answer) -> bool
    ensures { result ≡ alike (element_row found) (row_told right) }
{
    let right = Element::from(right);
    let shown = Shown(found);
    let expected = Shown(right);
    let _ = print!(rt; "   element {place}: {shown}, expected {expected}");
    verdict(rt, are_alike(found, right))
}

fn list(rt: &impl Print, direction: Direction, xs: &Numbers, ys: &Numbers, right: [Answer; 8]) {
    let mut leading = [NUMBER; 8];
    let mut trailing = [NUMBER; 8];
    let mut marks = [MARK; 8];
    let p = Parameters::ETRS_LAEA;
    let found = run(
        p,
        direction,
        xs,
        ys,
        &mut leading,
        &mut trailing,
        &mut marks,
    );
    verdict(rt, count_row(rt, "mixed list", direction, found, 2));
    for place in 0..8 {
        let element = element_at(place, &marks, &leading, &trailing);
        element_line(rt, place, element, right[place]);
    }
}

// What is expected of the eight points of either list.
fn expected(first: (f64, f64), fifth: (f64, f64)) -> [Answer; 8] {
    [
        Ok(first),
        Err(Refusal::NotFinite),
        Err(Refusal::OutOfLimits),
        Err(Refusal::TooFar),
        Ok(fifth),
        Err(Refusal::NotFinite),
        Err(Refusal::OutOfLimits),
        Err(Refusal::NotFinite),
    ]
}

pub(crate) fn of_degrees(rt: &impl Print) {
    let xs = [52.0, f64::NAN, 91.0, -52.0, 80.0, 52.0, 52.0, 91.0];
    let ys = [
        10.0,
        10.0,
        10.0,
        -170.0,
        -180.0,
        f64::INFINITY,
        180.00000000000003,
        f64::NAN,
    ];
    let right = expected((4_321_000.0, 3_210_000.0), (4_532_329.67, 8_390_463.61));
    list(rt, Forward, &xs, &ys, right);
}

pub(crate) fn of_metres(rt: &impl Print) {
    let xs = [
        4_321_000.0,
        f64::NAN,
        -50_000_000.00000001,
        50_000_000.0,
        3_962_799.45,
        0.0,
        0.0,
        50_000_001.0,
    ];
    let ys = [
        3_210_000.0,
        0.0,
        0.0,
        0.0,
        2_999_718.85,
        f64::NEG_INFINITY,
        50_000_000.00000001,
        f64::NAN,
    ];
    let right = expected((52.0, 10.0), (50.0, 5.000000277777778));
    list(rt, Inverse, &xs, &ys, right);
}

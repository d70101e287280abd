// A row of a list call in degrees or metres. Its outputs are the first elements of arrays of 4,097, all of which are
// looked at after the call. It gives back its verdict.
ghost use Rattle.std.specs.Prelude.{◌≡◌, ◌≤◌, length};
ghost use Rattle.units.specs.Refusals.{number};
ghost use Rattle.row_lists.specs.InnerRows.{row_of};
ghost use Rattle.point_lists.specs.Lists.{ListCall, list_answered};
ghost use Rattle.pairs.specs.Pairs.{zero_float};
ghost use Rattle.parameters.specs.ParameterSet.{etrs_laea};
ghost use Rattle.judging.specs.InnerDoubles.{is_told};
ghost use Rattle.point_vectors.specs.InnerRows.{is_forward};
ghost use Rattle.point_vectors.specs.InnerLists.{room, WithinRoom, numbers_of, marks_of, steps_of, outcome, outcome_of, untouched_digest, is_counted, is_refused};

use crate::point_rows::Direction;
use judging::doubles::{Digest, digest_of, is_answered};
use parameters::Parameters;
use point_lists::{forward_list, inverse_list};
use printing::{Shown, verdict};
use std::fmt;
use std::num::nearest_u64_to_f64;
use units::refusals::Refusal;

// One more than a list call takes.
const ROOM: usize = 4_097;

type Numbers = [f64; ROOM];

type Marks = [u8; ROOM];

// What the outputs hold before the call.
pub(crate) const NUMBER: f64 = 7.5;

pub(crate) const MARK: u8 = 9;

// Lending these as slices needs their length.
fn numbers(x: f64) -> Numbers
    ensures { (result ≡ numbers_of x) × (room ≡ length result) }
{
    [x; ROOM]
}

fn marks() -> Marks
    ensures { (result ≡ marks_of) × (room ≡ length result) }
{
    [MARK; ROOM]
}

// 0, step, 2 steps and so on.
fn steps(step: f64) -> Numbers
    ensures { (result ≡ steps_of step) × (room ≡ length result) }
{
    let mut out = numbers(0.0);
    for i in 0..ROOM {
        out[i] = nearest_u64_to_f64(i as u64) * step;
    }
    out
}

// The count of the points that are accepted, or the refusal of the whole list.
pub(crate) type Answer = Result<u64, Refusal>;

pub(crate) fn run(
    p: Parameters,
    direction: Direction,
    xs: &[f64],
    ys: &[f64],
    leading: &mut [f64],
    trailing: &mut [f64],
    marks: &mut [u8],
) -> Answer
    ensures { ListCall p (row_of (is_forward direction) p) xs.now ys.now
        leading.old leading.new trailing.old trailing.new
        marks.old marks.new (list_answered result) }
{
    match direction {
        Direction::Forward => forward_list(p, xs, ys, leading, trailing, marks),
        Direction::Inverse => inverse_list(p, xs, ys, leading, trailing, marks),
    }
}

// How many elements each of the five lists of a call lends.
#[derive(Clone, Copy)]
pub(crate) struct Lengths {
    pub(crate) xs: usize,
    pub(crate) ys: usize,
    pub(crate) leading: usize,
    pub(crate) trailing: usize,
    pub(crate) marks: usize,
}

// What a call answered, and what it left in its outputs.
#[derive(Clone, Copy)]
struct Outcome {
    answer: Answer,
    digest: Digest,
}

// A call on lists of these lengths, the k-th point at k steps.
fn call(p: Parameters, direction: Direction, lengths: Lengths, x_step: f64, y_step: f64) -> Outcome
    requires { WithinRoom lengths }
    ensures { outcome result ≡ outcome_of p (is_forward direction)
        lengths.xs lengths.ys lengths.leading lengths.trailing lengths.marks x_step y_step }
{
    let xs = steps(x_step);
    let ys = steps(y_step);
    let mut leading = numbers(NUMBER);
    let mut trailing = numbers(NUMBER);
    let mut marks = marks();
    let answer = run(
        p,
        direction,
        &xs[..lengths.xs],
        &ys[..lengths.ys],
        &mut leading[..lengths.leading],
        &mut trailing[..lengths.trailing],
        &mut marks[..lengths.marks],
    );
    Outcome {
        answer,
        digest: digest_of(&leading, &trailing, &marks),
    }
}

// The digest of outputs that are as they were filled.
fn untouched() -> Digest
    ensures { result ≡ untouched_digest }
{
    digest_of(&numbers(NUMBER), &numbers(NUMBER), &marks())
}

// A count as a row shows it.
#[derive(Clone, Copy)]
struct Count(u64);

impl fmt::Display for Count {
    fn fmt<W: fmt::Write>(&self, f: &mut fmt::Formatter<W>) -> fmt::Result {
        let count = self.0;
        write!(f, "count {count}")
    }
}

// A digest as a row shows it.
#[derive(Clone, Copy)]
struct Sums(Digest);

impl fmt::Display for Sums {
    fn fmt<W: fmt::Write>(&self, f: &mut fmt::Formatter<W>) -> fmt::Result {
        let Digest { sum, sums } = self.0;
        write!(f, "digest {sum:016x} {sums:016x}")
    }
}

// The row up to its digests.
fn show(rt: &impl Print, name: &str, direction: Direction, answer: Answer, right: Answer) {
    let shown = Shown(answer.map(Count));
    let expected = Shown(right.map(Count));
    let _ = print!(rt; "{name} of {direction}: {shown}, expected {expected}");
}

// The row up to the count, and whether that is as expected.
pub(crate) fn count_row(
    rt: &impl Print,
    name: &str,
    direction: Direction,
    answer: Answer,
    right: u64,
) -> bool
    ensures { result ≡ is_told (list_answered answer) 0 right }
{
    show(rt, name, direction, answer, Ok(right));
    is_answered(answer, Ok(right))
}

// Lists of n points of ETRS-LAEA; all are accepted.
pub(crate) fn list_row(
    rt: &impl Print,
    name: &str,
    direction: Direction,
    n: usize,
    x_step: f64,
    y_step: f64,
    right: Digest,
) -> bool
    requires { n ≤ room }
    ensures { result ≡ is_counted (outcome_of etrs_laea (is_forward direction) n n n n n x_step y_step) n right }
{
    let lengths = Lengths {
        xs: n,
        ys: n,
        leading: n,
        trailing: n,
        marks: n,
    };
    let found = call(Parameters::ETRS_LAEA, direction, lengths, x_step, y_step);
    let counted = count_row(rt, name, direction, found.answer, n as u64);
    let _ = print!(rt; "; {}, expected {}", Sums(found.digest), Sums(right));
    verdict(rt, counted && found.digest == right)
}

// Lists of these lengths, refused with the outputs as they were.
pub(crate) fn list_refused(
    rt: &impl Print,
    name: &str,
    p: Parameters,
    direction: Direction,
    lengths: Lengths,
    refusal: Refusal,
) -> bool
    requires { WithinRoom lengths }
    ensures { result ≡ is_refused (outcome_of p (is_forward direction)
        lengths.xs lengths.ys lengths.leading lengths.trailing lengths.marks zero_float zero_float) (number refusal) }
{
    let found = call(p, direction, lengths, 0.0, 0.0);
    let right = Err(refusal);
    show(rt, name, direction, found.answer, right);
    let _ = print!(rt; ", outputs untouched");
    verdict(
        rt,
        is_answered(found.answer, right) && found.digest == untouched(),
    )
}

// Lists in degrees and metres: short and long ones, and refused ones.
ghost use Rattle.std.specs.Prelude.{◌≡◌, ◌≤◌};
ghost use Rattle.point_vectors.specs.InnerLists.{room, WithinRoom};

use crate::list_rows::{Lengths, list_refused, list_row};
use crate::point_rows::Direction::{self, Forward, Inverse};
use crate::sets::{ALL_WRONG, ONE_WRONG};
use judging::doubles::Digest;
use parameters::Parameters;
use units::refusals::Refusal;

fn degrees(rt: &impl Print, name: &str, n: usize, sum: u64, sums: u64)
    requires { n ≤ room }
{
    list_row(
        rt,
        name,
        Forward,
        n,
        0.015625,
        0.03125,
        Digest { sum, sums },
    );
}

fn metres(rt: &impl Print, name: &str, n: usize, sum: u64, sums: u64)
    requires { n ≤ room }
{
    list_row(rt, name, Inverse, n, 1_000.0, 500.0, Digest { sum, sums });
}

pub(crate) fn accepted(rt: &impl Print) {
    degrees(
        rt,
        "list of 0",
        0,
        0x403C_0000_0000_9009,
        0x2096_0000_0480_D809,
    );
    degrees(
        rt,
        "list of 1",
        1,
        0xC289_09AF_6148_3E15,
        0x6059_93EA_C857_69ED,
    );
    degrees(
        rt,
        "list of 4096",
        4_096,
        0x6636_709B_3333_333F,
        0x1769_F8E8_DB32_F3C8,
    );
    metres(
        rt,
        "list of 0",
        0,
        0x403C_0000_0000_9009,
        0x2096_0000_0480_D809,
    );
    metres(
        rt,
        "list of 1",
        1,
        0xC067_12F0_925D_ADA1,
        0x4321_90EF_8D39_CAF5,
    );
    metres(
        rt,
        "list of 4096",
        4_096,
        0x5EC5_6FC2_FCE0_C0AF,
        0x1354_F1FC_9632_C6D8,
    );
}

// As many elements in each list, but for the marks.
fn lengths(points: usize, marks: usize) -> Lengths
    ensures { result ≡ record { xs = points; ys = points; leading = points; trailing = points; marks = marks } }
{
    Lengths {
        xs: points,
        ys: points,
        leading: points,
        trailing: points,
        marks,
    }
}

// Lists of unequal length.
fn unequal(rt: &impl Print, name: &str, direction: Direction, lengths: Lengths)
    requires { WithinRoom lengths }
{
    let p = Parameters::ETRS_LAEA;
    list_refused(rt, name, p, direction, lengths, Refusal::UnequalLists);
}

// Each list in turn is shorter than the others, or longer.
fn every_unequal(rt: &impl Print, direction: Direction) {
    let three = lengths(3, 3);
    let xs = Lengths { xs: 2, ..three };
    unequal(rt, "unequal 2 3 3 3 3", direction, xs);
    let ys = Lengths { ys: 2, ..three };
    unequal(rt, "unequal 3 2 3 3 3", direction, ys);
    let leading = Lengths {
        leading: 4,
        ..three
    };
    unequal(rt, "unequal 3 3 4 3 3", direction, leading);
    let trailing = Lengths {
        trailing: 2,
        ..three
    };
    unequal(rt, "unequal 3 3 3 2 3", direction, trailing);
    unequal(rt, "unequal 3 3 3 3 4", direction, lengths(3, 4));
}

// Each field is wrong in turn, in a list of one point.
fn bad_fields(rt: &impl Print, direction: Direction) {
    for (refusal, p) in ONE_WRONG {
        list_refused(rt, "bad field, 1", p, direction, lengths(1, 1), refusal);
    }
}

// A wrong set, and lists of these lengths.
fn bad_set(rt: &impl Print, name: &str, direction: Direction, lengths: Lengths, refusal: Refusal)
    requires { WithinRoom lengths }
{
    list_refused(rt, name, ALL_WRONG, direction, lengths, refusal);
}

// 5 is tested before 6, 6 before the set, and the set for lists of length 0 too.
fn order(rt: &impl Print, direction: Direction) {
    let long = Refusal::LongLists;
    let unequal_lists = Refusal::UnequalLists;
    let p = Parameters::ETRS_LAEA;
    let most = lengths(4_097, 4_097);
    list_refused(rt, "list of 4097", p, direction, most, long);
    unequal(rt, "unequal at 4097", direction, lengths(4_097, 4_096));
    bad_set(rt, "bad set, 4097", direction, most, long);
    let three = lengths(3, 2);
    bad_set(rt, "bad set, unequal", direction, three, unequal_lists);
    bad_set(rt, "bad set, 1", direction, lengths(1, 1), Refusal::BadA);
    bad_set(rt, "bad set, 0", direction, lengths(0, 0), Refusal::BadA);
}

pub(crate) fn refusals(rt: &impl Print) {
    for direction in [Forward, Inverse] {
        every_unequal(rt, direction);
        order(rt, direction);
        bad_fields(rt, direction);
    }
}

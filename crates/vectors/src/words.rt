// The words of document 01: rounded division, roots, sines and angles.
use angles::angle;
use integers::{near, root};
use sine_table::SineTable;
use std::fmt;
use trig::{cosine, sine};

fn row<T: fmt::Display + Drop>(rt: &impl Print, name: &str, value: T) {
    let _ = println!(rt; "{name} = {value}");
}

pub(crate) fn on_numbers(rt: &impl Print) {
    row(rt, "near(5/2)", near(5, 2));
    row(rt, "near(-5/2)", near(-5, 2));
    row(rt, "near(7/3)", near(7, 3));
    row(
        rt,
        "root(999999999999999999)",
        root(999_999_999_999_999_999),
    );
    row(rt, "root(2^64 - 1)", root(u64::MAX));
}

pub(crate) fn sines(rt: &impl Print, t: &SineTable) {
    row(rt, "T[1]", sine(t, 60_000));
    row(rt, "T[5399]", sine(t, 323_940_000));
    row(rt, "sine(1)", sine(t, 1));
    row(rt, "sine(-30 degrees)", sine(t, -108_000_000));
    row(rt, "sine(150 degrees)", sine(t, 540_000_000));
    row(rt, "sine(390 degrees)", sine(t, 1_404_000_000));
    row(rt, "cosine(120 degrees)", cosine(t, 432_000_000));
}

pub(crate) fn angles(rt: &impl Print, t: &SineTable) {
    for (x, y) in [(7, 7), (0, 1), (1, 0), (0, 0), (3, 4)] {
        let _ = println!(rt; "angle({x}, {y}) = {}", angle(t, x, y));
    }
}

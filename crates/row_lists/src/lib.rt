// Writes the rows of points into lists, and counts those that are accepted.
#![tactic(auto)]

ghost use Rattle.std.specs.Prelude.{◌≡◌, ◌<◌, length, set};
ghost use Rattle.points.specs.InnerStages.{numbered, listed, row_by};
ghost use Rattle.row_lists.specs.Rows.{rows, first_values, second_values, marks as marks_of, zeros};

use constants::projection::Projection;
use points::{Direction, both_pairs, pair};
use units::refusals::Refusal;

// Stores an answer at index i of the three lists: its two values and mark 0, or 0.0, 0.0 and its
// refusal number. The calls from C lend the rows as three lists.
fn put<D: Direction>(
    answer: Result<D::Found, Refusal>,
    i: usize,
    leading: &mut [f64],
    trailing: &mut [f64],
    marks: &mut [u8],
)
    requires { (i < length leading.old) × (i < length trailing.old) × (i < length marks.old) }
    ensures leading_after { leading.new ≡ set leading.old i (listed D.stages (numbered answer)).first }
    ensures trailing_after { trailing.new ≡ set trailing.old i (listed D.stages (numbered answer)).second }
    ensures marks_after { marks.new ≡ set marks.old i (listed D.stages (numbered answer)).mark }
{
    match answer {
        Ok(found) => {
            let (first, second) = D::values(found);
            leading[i] = first;
            trailing[i] = second;
            marks[i] = 0;
        }
        Err(refusal) => {
            leading[i] = 0.0;
            trailing[i] = 0.0;
            marks[i] = refusal.number();
        }
    }
}

// Writes every point of lists of equal length, two in a turn.
pub fn fill<D: Direction>(
    projection: &Projection,
    xs: &[f64],
    ys: &[f64],
    leading: &mut [f64],
    trailing: &mut [f64],
    marks: &mut [u8],
)
    requires { (length ys.now ≡ length xs.now) × (length leading.old ≡ length xs.now)
        × (length trailing.old ≡ length xs.now) × (length marks.old ≡ length xs.now) }
    ensures leading_after { leading.new ≡ first_values (rows (row_by D.stages projection.now.set) xs.now ys.now) }
    ensures trailing_after { trailing.new ≡ second_values (rows (row_by D.stages projection.now.set) xs.now ys.now) }
    ensures marks_after { marks.new ≡ marks_of (rows (row_by D.stages projection.now.set) xs.now ys.now) }
{
    for turn in 0..xs.len() / 2 {
        let i = 2 * turn;
        let j = i + 1;
        let (first, second) = both_pairs::<D>(
            projection,
            D::given(xs[i], ys[i]),
            D::given(xs[j], ys[j]),
        );
        put::<D>(first, i, leading, trailing, marks);
        put::<D>(second, j, leading, trailing, marks);
    }
    if xs.len() % 2 == 1 {
        let last = xs.len() - 1;
        let answer = pair::<D>(projection, D::given(xs[last], ys[last]));
        put::<D>(answer, last, leading, trailing, marks);
    }
}

// How many marks are 0.
pub fn count_zeros(marks: &[u8]) -> u64
    ensures { result ≡ zeros marks.now }
{
    marks.iter().filter(|mark| **mark == 0).count() as u64
}

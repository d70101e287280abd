// Lists of points: degrees to metres and back. Each call lends two inputs, two outputs and a list
// of marks.
#![tactic(auto)]

ghost use Rattle.std.specs.Prelude.{◌≡◌};
ghost use Rattle.units.specs.Refusals.{refusal_number};
ghost use Rattle.points.specs.InnerStages.{row_by};
ghost use Rattle.row_lists.specs.Rows.{forward_at, inverse_at};
ghost use Rattle.point_lists.specs.Lists.{length_refusal, list_answered, ListCall};

use constants::projection::Projection;
use parameters::Parameters;
use points::{Direction, Forward, Inverse};
use row_lists::{count_zeros, fill};
use sine_table::SineTable;
use units::refusals::Refusal;

// Lists have at most this many points.
const LONGEST: usize = 4_096;

// Refused where the lists' lengths are unequal, or too great.
#[tactic(auto, unfolding(crate::specs::Lists::length_refusal))]
fn check_lengths(a: usize, b: usize, c: usize, d: usize, e: usize) -> Result<(), Refusal>
    ensures { refusal_number result ≡ length_refusal a b c d e }
{
    Refusal::UnequalLists.unless(b == a && c == a && d == a && e == a)?;
    Refusal::LongLists.unless(a <= LONGEST)
}

// Any set and lists of any length, in a direction: the count of the marks that are 0, or the refusal.
// The table and the set's constants are made once.
fn list<D: Direction>(
    p: Parameters,
    xs: &[f64],
    ys: &[f64],
    leading: &mut [f64],
    trailing: &mut [f64],
    marks: &mut [u8],
) -> Result<u64, Refusal>
    ensures { ListCall p (row_by D.stages p) xs.now ys.now
        leading.old leading.new trailing.old trailing.new marks.old marks.new (list_answered result) }
{
    check_lengths(
        xs.len(),
        ys.len(),
        leading.len(),
        trailing.len(),
        marks.len(),
    )?;
    p.check()?;
    let t = SineTable::new();
    let projection = Projection::of_accepted(&t, p);
    fill::<D>(&projection, xs, ys, leading, trailing, marks);
    Ok(count_zeros(marks))
}

// Any set and lists of any length: the customer's call from degrees to metres.
pub fn forward_list(
    p: Parameters,
    latitudes: &[f64],
    longitudes: &[f64],
    leading: &mut [f64],
    trailing: &mut [f64],
    marks: &mut [u8],
) -> Result<u64, Refusal>
    ensures { ListCall p (forward_at p) latitudes.now longitudes.now
        leading.old leading.new trailing.old trailing.new marks.old marks.new (list_answered result) }
{
    list::<Forward>(p, latitudes, longitudes, leading, trailing, marks)
}

// Any set and lists of any length: the customer's call from metres to degrees.
pub fn inverse_list(
    p: Parameters,
    leading: &[f64],
    trailing: &[f64],
    latitudes: &mut [f64],
    longitudes: &mut [f64],
    marks: &mut [u8],
) -> Result<u64, Refusal>
    ensures { ListCall p (inverse_at p) leading.now trailing.now
        latitudes.old latitudes.new longitudes.old longitudes.new marks.old marks.new (list_answered result) }
{
    list::<Inverse>(p, leading, trailing, latitudes, longitudes, marks)
}

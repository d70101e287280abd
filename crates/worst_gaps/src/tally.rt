// What has been seen of one set's round trips.
ghost use Rattle.std.specs.Prelude.{◌≡◌};
ghost use Rattle.worst_gaps.specs.InnerTallies.{no_trips, counted, with_trip, refused_once, is_within};

use std::fmt;

// Where a count stops.
const COUNT_MOST: u64 = 1_000_000;

// The bounds of demand 3: latitude in mas, longitude gap in thousandths of a mas.
const LATITUDE_BOUND: u64 = 40;

const GAP_BOUND: u64 = 40_000;

// Gaps are the largest so far: latitude in mas, longitude in thousandths of a mas.
#[derive(Clone, Copy, Debug, Default, PartialEq, Eq)]
pub(crate) struct Tally {
    pub(crate) trips: u64,
    pub(crate) refused: u64,
    pub(crate) latitude: u64,
    pub(crate) longitude: u64,
}

// One more, up to the most.
fn more(n: u64) -> u64
    ensures { result ≡ counted n }
{
    n.saturating_add(1).min(COUNT_MOST)
}

impl Tally {
    pub(crate) fn none() -> Tally
        ensures { result ≡ no_trips }
    {
        Tally::default()
    }

    // A round trip with these gaps.
    pub(crate) fn add(self, latitude: u64, longitude: u64) -> Tally
        ensures { result ≡ with_trip self latitude longitude }
    {
        Tally {
            trips: more(self.trips),
            latitude: self.latitude.max(latitude),
            longitude: self.longitude.max(longitude),
            ..self
        }
    }

    // A position that is refused on the way there or back.
    pub(crate) fn refuse(self) -> Tally
        ensures { result ≡ refused_once self }
    {
        Tally {
            refused: more(self.refused),
            ..self
        }
    }

    // Whether demand 3 holds of all that was seen.
    #[tactic(auto, unfolding(crate::specs::InnerTallies::is_within))]
    fn is_within_bounds(self) -> bool
        ensures { result ≡ is_within self }
    {
        self.refused == 0 && self.latitude <= LATITUDE_BOUND && self.longitude <= GAP_BOUND
    }

    pub(crate) fn print(self, rt: &impl Print, name: &str) {
        let _ = print!(rt; "{name}: {self}");
        printing::verdict(rt, self.is_within_bounds());
    }
}

impl fmt::Display for Tally {
    fn fmt<W: fmt::Write>(&self, f: &mut fmt::Formatter<W>) -> fmt::Result {
        let Tally {
            trips,
            refused,
            latitude,
            longitude,
        } = self;
        write!(
            f,
            "{trips} round trips, {refused} refused, worst latitude gap {latitude} mas, worst longitude gap {longitude} thousandths of a mas, within 40 mas"
        )
    }
}

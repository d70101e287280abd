// An accepted set with its constants and the table, as the steps of both directions take them.
ghost use Rattle.std.specs.Prelude.{◌≡◌, IfOk};
ghost use Rattle.units.specs.Refusals.{refusal_number};
ghost use Rattle.parameters.specs.ParameterSet.{set_refusal};
ghost use Rattle.constants.specs.Derived.{constants_of};

use crate::{Constants, constants_of};
use parameters::Parameters;
use sine_table::SineTable;
use units::refusals::Refusal;

// The table is lent. That the set is accepted, and that the constants are its own, is known of every value.
#[derive(Clone, Copy)]
pub struct Projection<'t> {
    pub table: &'t SineTable,
    pub set: Parameters,
    pub constants: Constants,
    pub ghost set_accepted: { set_refusal set ≡ 0 },
    pub ghost of_set: { constants ≡ constants_of set },
}

impl<'t> Projection<'t> {
    // Refused where the set is.
    pub fn new(table: &'t SineTable, set: Parameters) -> Result<Projection<'t>, Refusal>
        ensures refused { refusal_number result ≡ set_refusal set }
        ensures same_set { IfOk result (λ projection. projection.set ≡ set) }
    {
        set.check()?;
        Ok(Projection::of_accepted(table, set))
    }

    // Of a set that is accepted already: a caller that tests it first makes no table for a refused one.
    pub fn of_accepted(table: &'t SineTable, set: Parameters) -> Projection<'t>
        requires { set_refusal set ≡ 0 }
        ensures { result.set ≡ set }
    {
        Projection {
            table,
            set,
            constants: constants_of(table, set),
        }
    }
}

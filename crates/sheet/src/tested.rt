// The tests of records, with the fault that each tells.
ghost use Rattle.std.specs.Prelude.{◌≡◌, length, IfOk, nat_le};
ghost use Rattle.sets.specs.Sets.{members};
ghost use Rattle.records.specs.Between.{movers_between};
ghost use Rattle.faults.specs.declared.FaultKind.TheVariants.{TooManyMovers};
ghost use Rattle.faults.specs.Faults.{told_by};
ghost use Rattle.sheet.specs.Pieces.{failing, test_of};

use faults::{Fault, FaultKind, Section};
use records::Tables;

// The most switches that may move.
const MOST_MOVERS: u8 = 16;

// The fault of a test that did not pass.
pub(crate) fn tested(passes: bool, fault: Fault) -> Result<(), Fault>
    ensures { told_by result ≡ failing fault.section fault.place (test_of fault.kind passes) }
{
    if passes { Ok(()) } else { Err(fault) }
}

// The set of the movers, where there are at most 16; else the fault of the section that begins at the place.
pub(crate) fn few_movers(tables: &Tables, section: Section, place: usize) -> Result<u64, Fault>
    ensures tells { told_by result ≡ failing section place (test_of TooManyMovers (nat_le (length (movers_between tables.now)) 16)) }
    ensures listed { IfOk result (λ m. members m ≡ movers_between tables.now) }
{
    let moving = tables.movers();
    tested(
        sets::count(moving) <= MOST_MOVERS,
        Fault {
            kind: FaultKind::TooManyMovers,
            section,
            place,
        },
    )?;
    Ok(moving)
}

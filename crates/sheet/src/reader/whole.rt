// The whole sheet.
ghost use Rattle.std.specs.Prelude.{◌≡◌, IfOk};
ghost use Rattle.sets.specs.Sets.{members};
ghost use Rattle.faults.specs.Faults.{told_by};
ghost use Rattle.sheet.specs.Layout.{switches as switches_of, flows as flows_of, movers_of};
ghost use Rattle.sheet.specs.Pieces.{first_fault};

use crate::reader::{Reader, Sheet};
use crate::tested::few_movers;
use faults::{Fault, Section};
use records::Tables;
use std::marker::{Brand, PhantomData};

// The numbers of a lawful sheet: its switches, its flows, and the set of its movers.
#[derive(Clone, Copy, Debug, PartialEq, Eq, Hash)]
pub struct Numbers {
    pub switches: u8,
    pub flows: u8,
    pub movers: u64,
}

// Reads a whole sheet: its numbers, or its first fault.
pub fn read_numbers(sheet: &[u8]) -> Result<Numbers, Fault>
    ensures tells { told_by result ≡ first_fault sheet.now }
    ensures counts { IfOk result (λ k. (k.switches ≡ switches_of sheet.now) × (k.flows ≡ flows_of sheet.now)) }
    ensures moving { IfOk result (λ k. members k.movers ≡ movers_of sheet.now) }
{
    read_all::<Brand>(sheet)
}

// The same, where the sheet has a name.
#[tactic(auto, using(crate::proofs::Firsts::in_turn, std::proofs::lemmas::Bool::Decides::nat_tests))]
fn read_all<S: Sheet>(sheet: &[u8]) -> Result<Numbers, Fault>
    requires { sheet.now ≡ S.bytes }
    ensures tells { told_by result ≡ first_fault S.bytes }
    ensures counts { IfOk result (λ k. (k.switches ≡ switches_of S.bytes) × (k.flows ≡ flows_of S.bytes)) }
    ensures moving { IfOk result (λ k. members k.movers ≡ movers_of S.bytes) }
{
    let mut reader = Reader::<S> {
        sheet,
        at: 0,
        of: PhantomData,
    };
    let n = reader.section_a()?;
    let f = reader.section_b(&n)?;
    let old = reader.table(Section::C, &n, &f)?;
    let place = reader.at;
    let new = reader.table(Section::D, &n, &f)?;
    reader.needed(&n, &f)?;
    reader.no_more()?;
    let tables = Tables::new(old, new, n.count, f.count).unwrap();
    let movers = few_movers(&tables, Section::D, place)?;
    Ok(Numbers {
        switches: n.count,
        flows: f.count,
        movers,
    })
}

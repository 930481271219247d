// A case: a lawful sheet with its numbers. It holds no copy of the sheet.
#![tactic(auto)]

ghost use Rattle.std.specs.Prelude.{◌≡◌, ◌+◌, ◌*◌, ◌<◌, ◌≤◌, ◌↔◌, true, length, IfSome, IsOk, Some, SomeIff, MatchResult};
ghost use Rattle.sets.specs.Sets.{MembersBelow, Exactly, members};
ghost use Rattle.faults.specs.declared.Fault.{Fault as FaultT};
ghost use Rattle.faults.specs.Faults.{told_by};
ghost use Rattle.cases.specs.Lawful.{LawfulSheet, FirstFails, is_lawful};
ghost use Rattle.sheet.specs.Layout.{switches as switches_of, flows as flows_of, ingress_of, exit_of, needed_of, old_table, new_table, movers_of, of_flow, smallest_sheet, ends_from, old_from, new_from, needed_from, mask_from};
ghost use Rattle.sheet.specs.Pieces.{first_fault};
ghost use Rattle.records.specs.Masks.{bytes_at};
ghost use Rattle.records.specs.Tables.{row_size, Mover, HopsInside};

use faults::Fault;
use records::mask_at;
use sheet::{Numbers, read_numbers};
use std::marker::Model;

#[derive(Drop)]
pub struct Case<'a> {
    sheet: &'a [u8],
    numbers: Numbers,
    ghost lawful: { is_lawful sheet.now ≡ true },
}

// A case is seen as the sheet that it was lent, which is lawful: as the slice, and not its bytes alone, so that "unchanged" says which slice it is.
impl<'a> Model for Case<'a> {
    ghost use Rattle.cases.specs.Case.{CaseOf, HeldSheet};

    ghost Value = { HeldSheet };

    ghost view = { λ c. record { sheet = c.sheet; lawful = c.lawful } };

    ghost invariant = { λ c. CaseOf c.sheet.now c.numbers.switches c.numbers.flows c.numbers.movers };
}

// Where a flow comes in and goes out.
#[derive(Clone, Copy)]
struct Ends {
    ingress: u8,
    exit: u8,
}

// The smallest lawful sheet: one switch, and one flow that ends where it begins.
const SMALLEST: &[u8; 25] = b"\x01\0\0\0\0\0\0\0\0\x01\0\0\x01\xff\x01\xff\x01\0\0\0\0\0\0\0\0";

// That a case is lawful callers see by a test, `is_lawful`. In closed form it is the model's invariant, which they do not see: so it stands in the clauses of calls. The size of a table stands in those of both, since callers take rows from them by it.
impl<'a> Case<'a> {
    // The case of the smallest lawful sheet: a place to read another into.
    pub fn smallest() -> Case<'a>
        ensures value { result.sheet.now ≡ smallest_sheet }
        ensures lawful { LawfulSheet result.sheet.now }
    {
        let numbers = Numbers {
            switches: 1,
            flows: 1,
            movers: 0,
        };
        Case {
            sheet: SMALLEST,
            numbers,
        }
    }

    // How many switches there are.
    pub fn switches(&self) -> u8
        ensures value { result ≡ switches_of self.now.sheet.now }
        ensures range { (0 < result) × (result ≤ 64) }
        ensures lawful { LawfulSheet self.now.sheet.now }
    {
        self.numbers.switches
    }

    // How many flows there are.
    pub fn flows(&self) -> u8
        ensures value { result ≡ flows_of self.now.sheet.now }
        ensures range { (0 < result) × (result ≤ 8) }
    {
        self.numbers.flows
    }

    // The switch where flow j comes in, if there is such a flow.
    pub fn ingress(&self, j: u8) -> Option<u8>
        ensures value { result ≡ of_flow (flows_of self.now.sheet.now) j (ingress_of self.now.sheet.now j) }
        ensures inside { IfSome result (λ s. s < switches_of self.now.sheet.now) }
    {
        self.ends(j).map(|ends| ends.ingress)
    }

    // The switch where flow j goes out, if there is such a flow.
    pub fn exit(&self, j: u8) -> Option<u8>
        ensures value { result ≡ of_flow (flows_of self.now.sheet.now) j (exit_of self.now.sheet.now j) }
        ensures inside { IfSome result (λ s. s < switches_of self.now.sheet.now) }
    {
        self.ends(j).map(|ends| ends.exit)
    }

    // The set of switches that flow j needs, if there is such a flow.
    pub fn needed(&self, j: u8) -> Option<u64>
        ensures value { result ≡ of_flow (flows_of self.now.sheet.now) j (needed_of self.now.sheet.now j) }
        ensures inside { IfSome result (λ m. MembersBelow (switches_of self.now.sheet.now) m) }
    {
        if j < self.numbers.flows {
            mask_at(self.sheet, self.needed_from() + 8 * usize::from(j))
        } else {
            None
        }
    }

    // The old table: a row for each switch, in it a byte for each flow.
    pub fn old_table(&self) -> &'a [u8]
        ensures value { result.now ≡ old_table self.now.sheet.now }
        ensures size { length result.now ≡ switches_of self.now.sheet.now * row_size (flows_of self.now.sheet.now) }
        ensures hops { HopsInside (switches_of self.now.sheet.now) (flows_of self.now.sheet.now) result.now }
    {
        self.table(self.old_from())
    }

    // The new table, of the same shape.
    pub fn new_table(&self) -> &'a [u8]
        ensures value { result.now ≡ new_table self.now.sheet.now }
        ensures size { length result.now ≡ switches_of self.now.sheet.now * row_size (flows_of self.now.sheet.now) }
        ensures hops { HopsInside (switches_of self.now.sheet.now) (flows_of self.now.sheet.now) result.now }
    {
        self.table(self.new_from())
    }

    // The set of the switches whose two rows differ.
    pub fn movers(&self) -> u64
        ensures exact { Exactly result (λ s. Mover (switches_of self.now.sheet.now) (flows_of self.now.sheet.now) (old_table self.now.sheet.now) (new_table self.now.sheet.now) s) }
        ensures listed { members result ≡ movers_of self.now.sheet.now }
        ensures few { length (members result) ≤ 16 }
    {
        self.numbers.movers
    }

    // The ends of flow j, if there is such a flow.
    fn ends(&self, j: u8) -> Option<Ends>
        ensures value { SomeIff result (j < flows_of self.now.sheet.now) (record { ingress = ingress_of self.now.sheet.now j; exit = exit_of self.now.sheet.now j }) }
        ensures inside { IfSome result (λ ends. (ends.ingress < switches_of self.now.sheet.now) × (ends.exit < switches_of self.now.sheet.now)) }
    {
        if j >= self.numbers.flows {
            return None;
        }
        let at = self.ends_from() + 2 * usize::from(j);
        Some(Ends {
            ingress: self.sheet[at],
            exit: self.sheet[at + 1],
        })
    }

    // The table whose rows begin at the place.
    fn table(&self, from: usize) -> &'a [u8]
        requires { from + switches_of self.now.sheet.now * row_size (flows_of self.now.sheet.now) ≤ length self.now.sheet.now }
        ensures value { result.now ≡ bytes_at self.now.sheet.now from (switches_of self.now.sheet.now * row_size (flows_of self.now.sheet.now)) }
        ensures size { length result.now ≡ switches_of self.now.sheet.now * row_size (flows_of self.now.sheet.now) }
    {
        &self.sheet[from..from + self.table_size()]
    }

    // The size of a table in bytes.
    fn table_size(&self) -> usize
        ensures value { result ≡ switches_of self.now.sheet.now * row_size (flows_of self.now.sheet.now) }
        ensures bound { result < 65536 }
    {
        usize::from(self.numbers.switches) * usize::from(self.numbers.flows)
    }

    // The place of the first pair of section B.
    fn ends_from(&self) -> usize
        ensures value { result ≡ ends_from self.now.sheet.now 0 }
        ensures bound { result < 65536 }
    {
        1 + 8 * usize::from(self.numbers.switches) + 1
    }

    // The place of the first old row.
    fn old_from(&self) -> usize
        ensures value { result ≡ old_from self.now.sheet.now + 1 }
        ensures lawful { LawfulSheet self.now.sheet.now }
        ensures bound { result < 131072 }
    {
        self.ends_from() + 2 * usize::from(self.numbers.flows) + 1
    }

    // The place of the first new row.
    fn new_from(&self) -> usize
        ensures value { result ≡ new_from self.now.sheet.now + 1 }
        ensures lawful { LawfulSheet self.now.sheet.now }
        ensures bound { result < 262144 }
    {
        self.old_from() + self.table_size() + 1
    }

    // The place of the first needed mask.
    fn needed_from(&self) -> usize
        ensures value { result ≡ mask_from (needed_from self.now.sheet.now) 0 }
        ensures bound { result < 524288 }
    {
        self.new_from() + self.table_size() + 1
    }
}

// Reads a sheet into the place, or tells its first fault and leaves the place as it was. A place, and not a `Result` with the case: so there is a lawful case at every moment, and callers keep the one that they had.
pub fn read<'a>(sheet: &'a [u8], case: &mut Case<'a>) -> Result<(), Fault>
    ensures tells { told_by result ≡ first_fault sheet.now }
    ensures lawful { IsOk result ↔ LawfulSheet sheet.now }
    ensures faulty { MatchResult result (λ _. LawfulSheet sheet.now) (λ e. FirstFails sheet.now e) }
    ensures exactly { (e : FaultT) → FirstFails sheet.now e → told_by result ≡ Some e }
    ensures held { MatchResult result (λ _. case.new.sheet.now ≡ sheet.now) (λ _. case.new ≡ case.old) }
    ensures place { LawfulSheet case.new.sheet.now }
{
    fill(sheet, case)
}

// The same, as the list of pieces tells it: what `read` ensures besides follows from this.
#[tactic(auto, using(crate::proofs::Laws::lawful_told, crate::proofs::Laws::case_told))]
fn fill<'a>(sheet: &'a [u8], case: &mut Case<'a>) -> Result<(), Fault>
    ensures tells { told_by result ≡ first_fault sheet.now }
    ensures held { MatchResult result (λ _. case.new.sheet.now ≡ sheet.now) (λ _. case.new ≡ case.old) }
    ensures place { LawfulSheet case.new.sheet.now }
{
    // opens the case, so that it is known to be lawful where it stays
    let _ = &case.sheet;
    let numbers = read_numbers(sheet)?;
    *case = Case { sheet, numbers };
    Ok(())
}

// Sections, each a count and then its records.
ghost use Rattle.std.specs.Prelude.{◌≡◌, ◌<◌, ◌≤◌, IfOk, OnOk};
ghost use Rattle.sheet.specs.Layout.{switches, flows_from, flows, ends_from, row_from, mask_from, table_at, sheet_end};
ghost use Rattle.sheet.specs.Pieces.{section_a, section_b, table_section, needed_section, no_more};
ghost use Rattle.sheet.specs.Reads.{ToldOf, TellsFirst};

use crate::reader::{Flows, Reader, Sheet, Switches};
use crate::tested::tested;
use faults::{Fault, FaultKind, Section};
use std::marker::PhantomData;

// Each section is a loop of its own, with `?` for a record that fails: `try_for_each` would hold the same call in a closure that borrows the reader.

// The most switches and flows that a sheet can have: the sheet's own limits, and not what a set can hold.
const MOST_SWITCHES: u8 = 64;

const MOST_FLOWS: u8 = 8;

impl<'a, S: Sheet> Reader<'a, S> {
    // Section A: the number of switches, and the links of each.
    #[tactic(auto, using(crate::proofs::Firsts::rest_more, crate::proofs::Firsts::rest_none), unfolding(crate::specs::Pieces::section_a))]
    pub(super) fn section_a(&mut self) -> Result<Switches<S>, Fault>
        requires { self.old.at ≡ 0 }
        ensures tells { TellsFirst S.bytes (section_a S.bytes) result }
        ensures goes { OnOk result (self.new.at ≡ flows_from S.bytes) }
    {
        let count = self.count(Section::A, FaultKind::SwitchCount, MOST_SWITCHES)?;
        let n = Switches {
            count,
            of: PhantomData,
        };
        for s in 0..count {
            self.link_mask(&n, s)?;
        }
        Ok(n)
    }

    // Section B: the number of flows, and the ends of each.
    #[tactic(auto, using(crate::proofs::Firsts::rest_more, crate::proofs::Firsts::rest_none), unfolding(crate::specs::Pieces::section_b))]
    pub(super) fn section_b(&mut self, n: &Switches<S>) -> Result<Flows<S>, Fault>
        requires { self.old.at ≡ flows_from S.bytes }
        ensures tells { TellsFirst S.bytes (section_b S.bytes) result }
        ensures goes { OnOk result (self.new.at ≡ ends_from S.bytes (flows S.bytes)) }
    {
        let count = self.count(Section::B, FaultKind::FlowCount, MOST_FLOWS)?;
        for _ in 0..count {
            self.flow_ends(n)?;
        }
        Ok(Flows {
            count,
            of: PhantomData,
        })
    }

    // Section C or D: the row of each switch. Gives the rows.
    #[tactic(auto, using(crate::proofs::Firsts::rest_more, crate::proofs::Firsts::rest_none), unfolding(crate::specs::Pieces::table_section))]
    pub(super) fn table(
        &mut self,
        section: Section,
        n: &Switches<S>,
        f: &Flows<S>,
    ) -> Result<&'a [u8], Fault>
        requires { flows_from S.bytes ≤ self.old.at }
        ensures tells { TellsFirst S.bytes (table_section S.bytes section self.old.at) result }
        ensures goes { OnOk result (self.new.at ≡ row_from S.bytes self.old.at (switches S.bytes)) }
        ensures reads { IfOk result (λ t. t.now ≡ table_at S.bytes self.old.at) }
    {
        let sheet = self.sheet;
        self.same_count(section, n.count)?;
        let from = self.at;
        for s in 0..n.count {
            self.switch_row(section, f, s)?;
        }
        Ok(&sheet[from..self.at])
    }

    // Section E: the needed switches of each flow.
    #[tactic(auto, using(crate::proofs::Firsts::rest_more, crate::proofs::Firsts::rest_none), unfolding(crate::specs::Pieces::needed_section))]
    pub(super) fn needed(&mut self, n: &Switches<S>, f: &Flows<S>) -> Result<(), Fault>
        ensures tells { TellsFirst S.bytes (needed_section S.bytes self.old.at) result }
        ensures goes { OnOk result (self.new.at ≡ mask_from self.old.at (flows S.bytes)) }
    {
        self.same_count(Section::E, f.count)?;
        for _ in 0..f.count {
            self.needed_mask(n)?;
        }
        Ok(())
    }

    // No byte follows section E.
    pub(super) fn no_more(&self) -> Result<(), Fault>
        requires { self.now.at ≡ sheet_end S.bytes }
        ensures { ToldOf S.bytes (no_more S.bytes) result }
    {
        let fault = self.fault(FaultKind::BytesFollow, Section::E);
        tested(self.sheet.len() <= self.at, fault)
    }
}

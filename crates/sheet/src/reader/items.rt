// Bytes and records.
ghost use Rattle.std.specs.Prelude.{◌≡◌, ◌+◌, ◌*◌, ◌<◌, ◌≤◌, length, IfOk, OnOk, IfErr};
ghost use Rattle.faults.specs.Faults.{fault_of};
ghost use Rattle.sheet.specs.Layout.{byte_at, links_from, links as links_at, flows};
ghost use Rattle.sheet.specs.Pieces.{counts_up_to, link_mask, flow_ends, same_count, switch_row, needed_mask};
ghost use Rattle.records.specs.Masks.{bytes_at, mask_at};
ghost use Rattle.records.specs.Tables.{row_size};
ghost use Rattle.sheet.specs.Reads.{Advanced, RunsOut, ToldOf};

use crate::reader::{Flows, Reader, Sheet, Switches};
use crate::tested::tested;
use faults::{Fault, FaultKind, Section};
use records::{links_fit, mask_at, mask_fits, row_fits, within};

// The size of a mask in bytes.
const MASK: u8 = 8;

// Each record is told with the fault that it would have, read, and tested. A function for the three steps would take two closures, which say no less than the steps.
impl<'a, S: Sheet> Reader<'a, S> {
    // The fault of a record that begins here.
    pub(super) fn fault(&self, kind: FaultKind, section: Section) -> Fault
        ensures { result ≡ fault_of kind section self.now.at }
    {
        Fault {
            kind,
            section,
            place: self.at,
        }
    }

    // The next byte, which belongs to the section.
    fn byte(&mut self, section: Section) -> Result<u8, Fault>
        ensures reads { IfOk result (λ b. b ≡ byte_at S.bytes self.old.at) }
        ensures goes { OnOk result (Advanced S.bytes 1 self.old.at self.new.at) }
        ensures ends { IfErr result (RunsOut S.bytes 1 self.old.at section) }
    {
        let Some(&byte) = self.sheet.get(self.at) else {
            return Err(Fault {
                kind: FaultKind::EndsTooSoon,
                section,
                place: self.sheet.len(),
            });
        };
        self.at += 1;
        Ok(byte)
    }

    // The next bytes, which are a record of the section.
    fn record(&mut self, section: Section, size: u8) -> Result<&'a [u8], Fault>
        ensures reads { IfOk result (λ r. r.now ≡ bytes_at S.bytes self.old.at size) }
        ensures goes { OnOk result (Advanced S.bytes size self.old.at self.new.at) }
        ensures ends { IfErr result (RunsOut S.bytes size self.old.at section) }
    {
        let sheet = self.sheet;
        let from = self.at;
        // Byte by byte: the project wants a fault to rise from the byte to the record.
        for _ in 0..size {
            self.byte(section)?;
        }
        Ok(&sheet[from..self.at])
    }

    // A mask of eight bytes, which is a record of the section.
    fn mask(&mut self, section: Section) -> Result<u64, Fault>
        ensures reads { IfOk result (λ m. m ≡ mask_at S.bytes self.old.at) }
        ensures goes { OnOk result (Advanced S.bytes 8 self.old.at self.new.at) }
        ensures ends { IfErr result (RunsOut S.bytes 8 self.old.at section) }
    {
        let place = self.at;
        self.record(section, MASK)?;
        Ok(mask_at(self.sheet, place).unwrap())
    }

    // A count from 1 to most, which is a record of the section.
    pub(super) fn count(&mut self, section: Section, kind: FaultKind, most: u8) -> Result<u8, Fault>
        ensures tells { ToldOf S.bytes (counts_up_to S.bytes section kind most self.old.at) result }
        ensures reads { IfOk result (λ k. (k ≡ byte_at S.bytes self.old.at) × (k ≤ most)) }
        ensures goes { OnOk result (self.new.at ≡ self.old.at + 1) }
    {
        let fault = self.fault(kind, section);
        let number = self.byte(section)?;
        tested(within(most, number), fault)?;
        Ok(number)
    }

    // The links of switch s.
    pub(super) fn link_mask(&mut self, n: &Switches<S>, s: u8) -> Result<(), Fault>
        requires { self.old.at ≡ links_from s }
        ensures tells { ToldOf S.bytes (link_mask S.bytes s) result }
        ensures goes { OnOk result (self.new.at ≡ links_from (s + 1)) }
    {
        let fault = self.fault(FaultKind::LinkMask, Section::A);
        let links = self.mask(Section::A)?;
        tested(links_fit(links, n.count, s), fault)
    }

    // The ingress and the exit of a flow.
    pub(super) fn flow_ends(&mut self, n: &Switches<S>) -> Result<(), Fault>
        ensures tells { ToldOf S.bytes (flow_ends S.bytes self.old.at) result }
        ensures goes { OnOk result (self.new.at ≡ self.old.at + 2) }
    {
        let fault = self.fault(FaultKind::FlowEnds, Section::B);
        let ingress = self.byte(Section::B)?;
        let exit = self.byte(Section::B)?;
        tested(ingress < n.count && exit < n.count, fault)
    }

    // The count of a section that is to have so many records.
    pub(super) fn same_count(&mut self, section: Section, expected: u8) -> Result<(), Fault>
        ensures tells { ToldOf S.bytes (same_count S.bytes section self.old.at expected) result }
        ensures goes { OnOk result (self.new.at ≡ self.old.at + 1) }
    {
        let fault = self.fault(FaultKind::SectionCount, section);
        let count = self.byte(section)?;
        tested(count == expected, fault)
    }

    // The links of switch s, which were read before.
    fn links_of(&self, s: u8) -> u64
        requires { links_from s + 8 ≤ length S.bytes }
        ensures { result ≡ links_at S.bytes s }
    {
        mask_at(self.sheet, 1 + 8 * usize::from(s)).unwrap()
    }

    // The row of switch s, an entry for each flow.
    pub(super) fn switch_row(&mut self, section: Section, f: &Flows<S>, s: u8) -> Result<(), Fault>
        requires { links_from s + 8 ≤ length S.bytes }
        ensures tells { ToldOf S.bytes (switch_row S.bytes section self.old.at s) result }
        ensures goes { OnOk result (self.new.at ≡ self.old.at + row_size (flows S.bytes)) }
    {
        let fault = self.fault(FaultKind::Hop, section);
        let links = self.links_of(s);
        let row = self.record(section, f.count)?;
        tested(row_fits(links, row), fault)
    }

    // The needed switches of a flow.
    pub(super) fn needed_mask(&mut self, n: &Switches<S>) -> Result<(), Fault>
        ensures tells { ToldOf S.bytes (needed_mask S.bytes self.old.at) result }
        ensures goes { OnOk result (self.new.at ≡ self.old.at + 8) }
    {
        let fault = self.fault(FaultKind::NeededMask, Section::E);
        let needed = self.mask(Section::E)?;
        tested(mask_fits(needed, n.count), fault)
    }
}

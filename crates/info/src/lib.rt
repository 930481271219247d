// What there is to tell of a sheet, as text.
#![tactic(auto)]

ghost use Rattle.std.specs.Prelude.{◌≡◌, ℕ, List, take, Some, IfOk, string_bytes};
ghost use Rattle.sets.specs.Sets.{members};
ghost use Rattle.info.specs.Texts.{refused_text, movers_text, summary_text, info_text, enough_bytes};

use cases::{Case, read};
use faults::Fault;
use std::alloc::{AllocError, Global};
use std::fmt;

// The line for a fault. The lemma is for a text in parts, which is proved as well.
#[tactic(auto, using(crate::proofs::Lines::refused_line))]
pub fn refused(heap: Global, fault: &Fault) -> Result<String, AllocError>
    ensures { IfOk result (λ t. string_bytes t ≡ refused_text fault.now) }
{
    format!(in heap; "refused {fault}\n")
}

// A set of switches, told by its members, rising, each after one blank.
#[derive(Clone, Copy)]
struct SwitchList(u64);

impl fmt::Display for SwitchList {
    ghost output = { λ set. Some (movers_text (members set.0)) };

    fn fmt<W: fmt::Write>(&self, f: &mut fmt::Formatter<W>) -> fmt::Result {
        for s in sets::rising(self.0) {
            write!(f, " {s}")?;
        }
        Ok(())
    }
}

// The lines for a lawful sheet.
pub fn summary(heap: Global, case: &Case) -> Result<String, AllocError>
    ensures { IfOk result (λ t. string_bytes t ≡ summary_text case.now.sheet.now) }
{
    let switches = case.switches();
    let flows = case.flows();
    let movers = SwitchList(case.movers());
    format!(in heap; "switches {switches}\nflows {flows}\nmovers{movers}\n")
}

// What is told of a sheet: its numbers, or its first fault.
pub fn describe(heap: Global, sheet: &[u8]) -> Result<String, AllocError>
    ensures { IfOk result (λ t. string_bytes t ≡ info_text sheet.now) }
{
    let mut case = Case::smallest();
    match read(sheet, &mut case) {
        Ok(()) => summary(heap, &case),
        Err(fault) => refused(heap, &fault),
    }
}

// How many bytes at the start of an input are enough to judge it.
pub fn enough() -> u64
    ensures { result ≡ enough_bytes }
{
    1622
}

// What is told of an input, by its start: as many bytes as are enough, or all of it where it has fewer.
pub fn describe_start(heap: Global, start: &[u8]) -> Result<String, AllocError>
    ensures { IfOk result (λ t. (whole : List ℕ) → start.now ≡ take enough_bytes whole → string_bytes t ≡ info_text whole) }
{
    describe(heap, start)
}

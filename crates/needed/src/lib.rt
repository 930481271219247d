// The policy that has each flow meet certain switches.
#![tactic(auto)]

ghost use Rattle.std.specs.Prelude.{◌≡◌, ◌==◌};
ghost use Rattle.sheet.specs.Layout.{flows as flows_of, needed_of};
ghost use Rattle.needed.specs.Marks.{missing_at_first, less_switch};
ghost use Rattle.needed.specs.Needs.{MeetsNeeds, MasksOf};
ghost use Rattle.needed.specs.Missing.{none_missing};

use cases::Case;
use policy::Policy;

// The sets of switches that flows 0 to 7 need, any eight; a flow of 8 or above needs nothing. Allows the lists that have every switch that the flow needs.
#[derive(Clone, Copy, Debug, PartialEq, Eq, Hash)]
pub struct Needed {
    pub masks: [u64; 8],
}

// The needed switches of a case; a flow that it does not have needs nothing.
impl From<&Case<'_>> for Needed {
    ghost from_gives = { λ case needed. MasksOf (flows_of case.now.sheet.now) (needed_of case.now.sheet.now) needed.masks };

    fn from(case: &Case<'_>) -> Needed {
        let mut masks = [0; 8];
        for (flow, mask) in masks.iter_mut().enumerate() {
            // below 8: no `From` narrows, and the proof shows that nothing is lost; `array::from_fn`, which counts too, was left unproved
            *mask = case.needed(flow as u8).unwrap_or_default();
        }
        Needed { masks }
    }
}

// The set of missing switches after one that was met.
fn still_missing(missing: u64, met: u8) -> u64
    ensures { result ≡ less_switch missing met }
{
    sets::without(missing, met)
}

impl Policy for Needed {
    // The needed switches that were not met yet.
    type Mark = u64;

    ghost start = { λ p flow. missing_at_first p.masks flow };

    ghost step = { λ _ missing s. less_switch missing s };

    ghost grants = { λ _ missing. missing == 0 };

    ghost allowed = { λ p flow xs. MeetsNeeds p.masks flow xs };

    ghost tells = { λ p flow xs. none_missing p.masks flow xs };

    fn begin(&self, flow: u8) -> u64 {
        self.masks
            .get(usize::from(flow))
            .copied()
            .unwrap_or_default()
    }

    fn pass(&self, mark: u64, switch: u8) -> u64 {
        still_missing(mark, switch)
    }

    fn allows(&self, mark: u64) -> bool {
        mark == 0
    }
}

// Examples of policies. First what judging says of each kind, in the words of its meaning, as it follows from the contract of `judge`; then tables of lists with the answer to each, proved and run.
#![tactic(auto)]

ghost use Rattle.std.specs.Prelude.{◌↔◌, IsTrue};
ghost use Rattle.automata.specs.Runs.{Accepts};
ghost use Rattle.needed.specs.Needs.{MeetsNeeds};

use automata::{Automaton, HeldAutomaton, Transition, Transitions};
use needed::Needed;
use policy::{Both, Open, judge};

// Every list is allowed.
fn is_free(flow: u8, list: &[u8]) -> bool
    ensures { IsTrue result }
{
    judge(&Open, flow, list)
}

// Every needed switch stands in the list.
fn meets_needs(needed: &Needed, flow: u8, list: &[u8]) -> bool
    ensures { IsTrue result ↔ MeetsNeeds needed.now.masks flow list.now }
{
    judge(needed, flow, list)
}

// Some run is accepted, whatever the flow. The automaton is made here, so that what `new` ensures is used as well.
fn has_run(steps: &[Transition], start: u32, accepting: u32, flow: u8, list: &[u8]) -> bool
    ensures { IsTrue result ↔ Accepts steps.now start accepting list.now }
{
    judge(&Automaton::new(steps, start, accepting), flow, list)
}

// The same of an automaton that keeps what holds its transitions.
fn has_held_run<T: Transitions>(held: &HeldAutomaton<T>, flow: u8, list: &[u8]) -> bool
    ensures { IsTrue result ↔ Accepts (T.listed held.now.transitions) held.now.start held.now.accepting list.now }
{
    judge(held, flow, list)
}

// Both at once.
fn meets_both(
    needed: Needed,
    steps: &[Transition],
    start: u32,
    accepting: u32,
    flow: u8,
    list: &[u8],
) -> bool
    ensures { IsTrue result ↔ (MeetsNeeds needed.masks flow list.now × Accepts steps.now start accepting list.now) }
{
    let both = Both {
        first: needed,
        second: Automaton::new(steps, start, accepting),
    };
    judge(&both, flow, list)
}

#[cfg(test)]
mod tests {
    use super::*;
    use cases::{Case, read};
    use policy::Policy;
    use std::process::Abort;

    // Each row has a flow, a list for it, and the answer that is wanted: a `bool`, as judging gives it.
    fn agrees<P: Policy>(rt: &impl Abort, policy: &P, rows: &[(u8, &[u8], bool)]) {
        for &(flow, list, allowed) in rows {
            assert_eq!(rt; judge(policy, flow, list), allowed);
        }
    }

    fn goes(from: u8, switch: u8, to: u8) -> Transition {
        Transition { from, switch, to }
    }

    #[test]
    fn open_allows_every_list(rt: HostRuntime) {
        agrees(
            &rt,
            &Open,
            &[
                (0, &[], true),
                (3, &[0, 1, 1], true),
                (7, &[63, 64, 255], true),
                (8, &[], true),
                (255, &[200], true),
            ],
        );
    }

    // Flow 0 needs 1 and 3, flow 2 needs 63, flow 7 needs 0, 62 and 63, and the others nothing.
    const NEEDED: Needed = Needed {
        masks: [10, 0, 1 << 63, 0, 0, 0, 0, 1 | 1 << 62 | 1 << 63],
    };

    #[test]
    fn needed_switches_are_met_in_any_order(rt: HostRuntime) {
        agrees(
            &rt,
            &NEEDED,
            &[
                (0, &[], false),
                (0, &[1], false),
                (0, &[1, 1, 2], false),
                (0, &[3, 1], true),
                (0, &[0, 1, 2, 3, 1], true),
            ],
        );
        agrees(
            &rt,
            &NEEDED,
            &[
                (2, &[63], true),
                (2, &[62], false),
                (7, &[62, 63], false),
                (7, &[0, 62], false),
                (7, &[63, 0, 62], true),
            ],
        );
    }

    #[test]
    fn a_number_of_64_or_above_is_no_needed_switch(rt: HostRuntime) {
        agrees(
            &rt,
            &NEEDED,
            &[
                (0, &[65, 67], false),
                (2, &[127], false),
                (2, &[255, 191], false),
                (2, &[255, 63], true),
                (0, &[65, 1, 67, 3], true),
            ],
        );
    }

    #[test]
    fn a_flow_with_no_set_needs_nothing(rt: HostRuntime) {
        agrees(
            &rt,
            &NEEDED,
            &[
                (1, &[], true),
                (6, &[9], true),
                (8, &[], true),
                (10, &[62], true),
                (255, &[], true),
            ],
        );
    }

    // The diamond, which `case_tests` has with nothing needed; to share it, a library would have to hand out a sheet for tests alone. Four switches and one flow from 0 to 3, whose middle two switches change places. The flow needs switch 1.
    const DIAMOND: &[u8; 55] = b"\x04\
        \0\0\0\0\0\0\0\x06\0\0\0\0\0\0\0\x0c\0\0\0\0\0\0\0\x0a\0\0\0\0\0\0\0\0\
        \x01\0\x03\
        \x04\x01\x02\x03\xff\
        \x04\x02\x03\x01\xff\
        \x01\0\0\0\0\0\0\0\x02";

    #[test]
    fn a_case_needs_what_its_sheet_says(rt: HostRuntime) {
        let mut case = Case::smallest();
        assert!(rt; read(DIAMOND, &mut case).is_ok());
        let needed = Needed::from(&case);
        assert_eq!(rt; needed.masks, [2, 0, 0, 0, 0, 0, 0, 0]);
        agrees(
            &rt,
            &needed,
            &[
                (0, &[0, 1, 2, 3], true),
                (0, &[0, 2, 3], false),
                (1, &[0, 2, 3], true),
                (8, &[], true),
            ],
        );
    }

    // The firewall is switch 2: a list is allowed once it has met it.
    #[test]
    fn a_waypoint_is_met(rt: HostRuntime) {
        let steps = [
            goes(0, 0, 0),
            goes(0, 1, 0),
            goes(0, 3, 0),
            goes(0, 2, 1),
            goes(1, 0, 1),
            goes(1, 1, 1),
            goes(1, 2, 1),
            goes(1, 3, 1),
        ];
        let waypoint = Automaton::new(&steps, 1, 2);
        agrees(
            &rt,
            &waypoint,
            &[
                (0, &[], false),
                (0, &[0, 1, 3], false),
                (0, &[0, 2, 3], true),
                (9, &[2], true),
                (255, &[0, 1, 2, 1, 3], true),
            ],
        );
        // a switch that the automaton does not know ends every run
        agrees(
            &rt,
            &waypoint,
            &[
                (0, &[2, 4], false),
                (0, &[66], false),
                (0, &[2, 255], false),
            ],
        );
    }

    // Transitions in a type of their own.
    #[derive(Drop)]
    struct Steps {
        steps: [Transition; 2],
    }

    impl Transitions for Steps {
        ghost listed = { λ s. s.steps };

        fn all(&self) -> &[Transition] {
            &self.steps
        }
    }

    #[test]
    fn an_automaton_may_keep_its_transitions(rt: HostRuntime) {
        let held = HeldAutomaton {
            transitions: Steps {
                steps: [goes(0, 2, 1), goes(1, 3, 1)],
            },
            start: 1,
            accepting: 2,
        };
        agrees(
            &rt,
            &held,
            &[
                (0, &[], false),
                (0, &[2], true),
                (9, &[2, 3, 3], true),
                (0, &[3, 2], false),
            ],
        );
        assert_eq!(rt; held.lent().transitions.len(), 2);
    }

    // A firewall, 1, then a load balancer, 2, then the exit, 3, with switch 0 anywhere before it.
    #[test]
    fn a_service_chain_is_met_in_order(rt: HostRuntime) {
        let steps = [
            goes(0, 0, 0),
            goes(0, 1, 1),
            goes(1, 0, 1),
            goes(1, 2, 2),
            goes(2, 0, 2),
            goes(2, 3, 3),
        ];
        let chain = Automaton::new(&steps, 1, 8);
        agrees(
            &rt,
            &chain,
            &[
                (0, &[1, 2, 3], true),
                (0, &[0, 1, 0, 2, 0, 3], true),
                (0, &[0, 2, 1, 3], false),
                (0, &[1, 3], false),
                (0, &[1, 2], false),
                (0, &[1, 2, 3, 0], false),
            ],
        );
    }

    // Whoever meets 1 meets 2 later on.
    #[test]
    fn a_condition_is_kept(rt: HostRuntime) {
        let steps = [
            goes(0, 0, 0),
            goes(0, 2, 0),
            goes(0, 3, 0),
            goes(0, 1, 1),
            goes(1, 0, 1),
            goes(1, 1, 1),
            goes(1, 3, 1),
            goes(1, 2, 0),
        ];
        let condition = Automaton::new(&steps, 1, 1);
        agrees(
            &rt,
            &condition,
            &[
                (0, &[], true),
                (0, &[0, 3], true),
                (0, &[0, 1, 3], false),
                (0, &[0, 1, 2, 3], true),
                (0, &[2, 1], false),
                (0, &[1, 2, 1, 3, 2], true),
            ],
        );
    }

    // The last but one switch is 1: runs guess which one that is. Repeated transitions change nothing.
    #[test]
    fn some_run_is_enough(rt: HostRuntime) {
        let steps = [
            goes(0, 0, 0),
            goes(0, 1, 0),
            goes(0, 1, 1),
            goes(0, 1, 1),
            goes(1, 0, 2),
            goes(1, 1, 2),
            goes(0, 0, 0),
        ];
        let guess = Automaton::new(&steps, 1, 4);
        agrees(
            &rt,
            &guess,
            &[
                (0, &[1], false),
                (0, &[1, 0], true),
                (0, &[0, 1, 1, 0], true),
                (0, &[1, 1], true),
                (0, &[1, 0, 0], false),
                (0, &[0, 0, 1], false),
            ],
        );
    }

    #[test]
    fn an_automaton_may_have_no_transitions(rt: HostRuntime) {
        let still = Automaton::new(&[], u32::MAX, 1 << 31);
        agrees(
            &rt,
            &still,
            &[
                (0, &[], true),
                (0, &[0], false),
                (77, &[], true),
                (8, &[64], false),
            ],
        );
        agrees(
            &rt,
            &Automaton::new(&[], 1 << 30, 1 << 31),
            &[(0, &[], false)],
        );
        agrees(&rt, &Automaton::new(&[], u32::MAX, 0), &[(0, &[], false)]);
    }

    #[test]
    fn states_are_numbered_up_to_31(rt: HostRuntime) {
        let steps = [
            goes(31, 255, 31),
            goes(31, 64, 0),
            goes(0, 1, 32),
            goes(32, 2, 0),
            goes(0, 3, 255),
            goes(0, 63, 31),
        ];
        let ends = Automaton::new(&steps, 1 << 31, 1);
        agrees(
            &rt,
            &ends,
            &[
                (0, &[64], true),
                (0, &[255, 255, 64], true),
                (0, &[255], false),
                (0, &[64, 63, 64], true),
            ],
        );
        // states above 31 are never reached and never left
        agrees(
            &rt,
            &Automaton::new(&steps, 1 << 31, u32::MAX),
            &[
                (0, &[64, 1], false),
                (0, &[64, 3], false),
                (0, &[64, 1, 2], false),
            ],
        );
        agrees(
            &rt,
            &Automaton::new(&steps, u32::MAX, 1),
            &[(0, &[2], false), (0, &[1], false), (0, &[], true)],
        );
    }

    // Switch 1 is needed by flow 0, and the firewall, switch 2, comes first on every list of every flow.
    #[test]
    fn both_allow(rt: HostRuntime) {
        let steps = [goes(0, 2, 1), goes(1, 0, 1), goes(1, 1, 1), goes(1, 3, 1)];
        let both = Both {
            first: Needed {
                masks: [2, 0, 0, 0, 0, 0, 0, 0],
            },
            second: Automaton::new(&steps, 1, 2),
        };
        agrees(
            &rt,
            &both,
            &[
                (0, &[2, 1, 3], true),
                (0, &[2, 3], false),
                (0, &[1, 2, 3], false),
                (0, &[1], false),
                (0, &[], false),
                (1, &[2, 3], true),
                (1, &[1], false),
            ],
        );
        let three = Both {
            first: both,
            second: Open,
        };
        agrees(
            &rt,
            &three,
            &[
                (0, &[2, 0, 1], true),
                (0, &[2, 0], false),
                (8, &[2], true),
                (8, &[1], false),
            ],
        );
    }

    // The firewall, switch 2, is all that a list may have.
    #[test]
    fn meanings_are_judged(rt: HostRuntime) {
        let steps = [goes(0, 2, 0)];
        assert!(rt; is_free(0, &[9]));
        assert!(rt; meets_needs(&NEEDED, 0, &[1, 3]) && !meets_needs(&NEEDED, 0, &[1]));
        assert!(rt; has_run(&steps, 1, 1, 0, &[2, 2]) && !has_run(&steps, 1, 1, 0, &[2, 3]));
        assert!(rt;
            meets_both(NEEDED, &steps, 1, 1, 1, &[2]) && !meets_both(NEEDED, &steps, 1, 1, 0, &[2])
        );
    }
}

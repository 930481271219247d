// The policy of a nondeterministic automaton that reads lists of switches.
#![tactic(auto)]

ghost use Rattle.std.specs.Prelude.{◌≡◌, ◌^◌, ◌<◌};
ghost use Rattle.automata.specs.Marks.{is_state, is_taken, next_states, some_in};
ghost use Rattle.automata.specs.Runs.{Accepts};
ghost use Rattle.automata.specs.States.{some_run};

use policy::Policy;

mod held;

pub use held::{HeldAutomaton, Transitions};

// States are numbered 0 to 31.
const STATES: u8 = 32;

// From one state at a switch to another. One that names a state above 31 is never taken.
#[derive(Debug, Clone, Copy, PartialEq, Eq, Hash)]
pub struct Transition {
    pub from: u8,
    pub switch: u8,
    pub to: u8,
}

// Sets of states are masks: bit q stands for state q. Allows, for every flow, the lists that some run from a state of `start` to one of `accepting` reads.
#[derive(Debug, Clone, Copy, PartialEq, Eq, Hash)]
pub struct Automaton<'a> {
    pub transitions: &'a [Transition],
    pub start: u32,
    pub accepting: u32,
}

impl<'a> Automaton<'a> {
    // An automaton over transitions that the maker lends.
    pub fn new(transitions: &'a [Transition], start: u32, accepting: u32) -> Automaton<'a>
        ensures { (result.transitions.now ≡ transitions.now) × (result.start ≡ start) × (result.accepting ≡ accepting) }
    {
        Automaton {
            transitions,
            start,
            accepting,
        }
    }
}

// Whether q is one of the states.
fn has_state(states: u32, q: u8) -> bool
    ensures { result ≡ is_state states q }
{
    q < STATES && sets::has(u64::from(states), q)
}

// The set of one state.
fn only(q: u8) -> u32
    requires { q < 32 }
    ensures { result ≡ 2 ^ q }
{
    1 << q
}

// Whether the transition is taken at the switch from one of the states.
fn takes(t: &Transition, states: u32, switch: u8) -> bool
    ensures { result ≡ is_taken t.now states switch }
{
    t.switch == switch && has_state(states, t.from) && t.to < STATES
}

// The states that the transitions taken at the switch lead to.
fn reached(transitions: &[Transition], states: u32, switch: u8) -> u32
    ensures { result ≡ next_states transitions.now states switch }
{
    transitions.iter().fold(0, |next, t| {
        if takes(t, states, switch) {
            next | only(t.to)
        } else {
            next
        }
    })
}

impl<'a> Policy for Automaton<'a> {
    // The states that runs over the switches so far can be in.
    type Mark = u32;

    ghost start = { λ p _. p.start };

    ghost step = { λ p states s. next_states p.transitions.now states s };

    ghost grants = { λ p states. some_in p.accepting states };

    ghost allowed = { λ p _ xs. Accepts p.transitions.now p.start p.accepting xs };

    ghost tells = { λ p flow xs. some_run p.transitions.now p.accepting p.start xs };

    fn begin(&self, _flow: u8) -> u32 {
        self.start
    }

    fn pass(&self, mark: u32, switch: u8) -> u32 {
        reached(self.transitions, mark, switch)
    }

    fn allows(&self, mark: u32) -> bool {
        mark & self.accepting != 0
    }
}

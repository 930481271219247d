// Automata for those who have their transitions in a type of their own.
ghost use Rattle.std.specs.Prelude.{◌≡◌, List};
ghost use Rattle.automata.specs.declared.Transition.{Transition as TransitionT};
ghost use Rattle.automata.specs.Marks.{next_states, some_in};
ghost use Rattle.automata.specs.Runs.{Accepts};
ghost use Rattle.automata.specs.States.{some_run};

use crate::{Automaton, Transition};
use policy::Policy;

// What holds transitions, and lends them.
pub trait Transitions {
    ghost listed: { Self → List TransitionT };

    fn all(&self) -> &[Transition]
        ensures { result.now ≡ listed self.now };
}

// A slice lends itself.
impl<'a> Transitions for &'a [Transition] {
    ghost listed = { λ ts. ts.now };

    fn all(&self) -> &[Transition] {
        *self
    }
}

// An automaton with what holds its transitions: the same policy as the automaton over them.
#[derive(Debug, Clone, Copy, PartialEq, Eq, Hash)]
pub struct HeldAutomaton<T> {
    pub transitions: T,
    pub start: u32,
    pub accepting: u32,
}

impl<T: Transitions> HeldAutomaton<T> {
    // The automaton over the transitions that are held.
    pub fn lent(&self) -> Automaton<'_>
        ensures { (result.transitions.now ≡ T.listed self.now.transitions) × (result.start ≡ self.now.start) × (result.accepting ≡ self.now.accepting) }
    {
        Automaton::new(self.transitions.all(), self.start, self.accepting)
    }
}

impl<T: Transitions> Policy for HeldAutomaton<T> {
    // The mark of the automaton over the transitions.
    type Mark = u32;

    ghost start = { λ p _. p.start };

    ghost step = { λ p states s. next_states (T.Transitions.listed p.transitions) states s };

    ghost grants = { λ p states. some_in p.accepting states };

    ghost allowed = { λ p _ xs. Accepts (T.Transitions.listed p.transitions) p.start p.accepting xs };

    ghost tells = { λ p flow xs. some_run (T.Transitions.listed p.transitions) p.accepting p.start xs };

    fn begin(&self, _flow: u8) -> u32 {
        self.start
    }

    fn pass(&self, mark: u32, switch: u8) -> u32 {
        self.lent().pass(mark, switch)
    }

    fn allows(&self, mark: u32) -> bool {
        mark & self.accepting != 0
    }
}

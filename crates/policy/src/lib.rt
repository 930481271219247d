// Policies: which lists of switches a flow may meet. A list is judged switch by switch, by a mark that is handed on.
#![tactic(auto)]

ghost use Rattle.std.specs.Prelude.{◌≡◌, ℕ, Bool, true, ◌&&◌, List, IsTrue, ◌↔◌, fold};
ghost use Rattle.policy.specs.Unmarked.{KeepsNoMark};
ghost use Rattle.std.proofs.Common.{rules};
ghost use Rattle.std.proofs.lemmas.Bool.Decides.{Decides-and};
ghost use Rattle.policy.specs.Passing.{fold_pair};

// Flows and switches are any bytes, and no method refuses. Only `allowed` is to be believed: the law ties the marks to it.
pub trait Policy {
    // What is kept of the switches met so far.
    type Mark: Copy;

    // The mark of a flow for the empty list.
    ghost start: { Self → ℕ → Self.Mark };

    // The mark after one more switch.
    ghost step: { Self → Self.Mark → ℕ → Self.Mark };

    // What is said of a list with the mark.
    ghost grants: { Self → Self.Mark → Bool };

    // The meaning: the list of switches is allowed for the flow.
    ghost allowed: { Self → ℕ → List ℕ → Type 0 };

    fn begin(&self, flow: u8) -> Self::Mark
        ensures { result ≡ start self.now flow };

    fn pass(&self, mark: Self::Mark, switch: u8) -> Self::Mark
        ensures { result ≡ step self.now mark switch };

    fn allows(&self, mark: Self::Mark) -> bool
        ensures { result ≡ grants self.now mark };

    // The mark after all switches of a list in turn gets a yes exactly when the list is allowed.
    ghost tells: { (p : Self) (flow : ℕ) (xs : List ℕ) → IsTrue (grants p (fold (step p) (start p flow) xs)) ↔ allowed p flow xs };
}

// Whether the policy allows the list of switches for the flow. A policy that keeps no mark of the flow has one answer to all lists: it allows every list or none.
pub fn judge<P: Policy>(policy: &P, flow: u8, list: &[u8]) -> bool
    ensures meant { IsTrue result ↔ P.allowed policy.now flow list.now }
    ensures unmarked { KeepsNoMark (P.step policy.now) (P.start policy.now flow) → (xs : List ℕ) → IsTrue result ↔ P.allowed policy.now flow xs }
{
    let first = policy.begin(flow);
    let mark = list
        .iter()
        .fold(first, |mark, &switch| policy.pass(mark, switch));
    policy.allows(mark)
}

// Allows every list.
#[derive(Debug, Clone, Copy, PartialEq, Eq, Hash, Default)]
pub struct Open;

impl Policy for Open {
    type Mark = ();

    ghost start = { λ _ _. tt };

    ghost step = { λ _ mark _. mark };

    ghost grants = { λ _ _. true };

    ghost allowed = { λ _ _ _. Unit {0} };

    ghost tells = { Prim.search rules };

    fn begin(&self, _flow: u8) {}

    fn pass(&self, mark: (), _switch: u8) {
        mark
    }

    fn allows(&self, _mark: ()) -> bool {
        true
    }
}

// Allows what both of its policies allow.
#[derive(Debug, Clone, Copy, PartialEq, Eq, Hash)]
pub struct Both<P, Q> {
    pub first: P,
    pub second: Q,
}

impl<P: Policy, Q: Policy> Policy for Both<P, Q> {
    type Mark = (P::Mark, Q::Mark);

    ghost start = { λ p flow. (P.Policy.start p.first flow, Q.Policy.start p.second flow) };

    ghost step = { λ p mark s. (P.Policy.step p.first mark.0 s, Q.Policy.step p.second mark.1 s) };

    ghost grants = { λ p mark. P.Policy.grants p.first mark.0 && Q.Policy.grants p.second mark.1 };

    ghost allowed = { λ p flow xs. P.Policy.allowed p.first flow xs × Q.Policy.allowed p.second flow xs };

    ghost tells = { λ p flow xs.
        let a = P.Policy in
        let b = Q.Policy in
        rw (fold_pair (a.step p.first) (b.step p.second) xs (a.start p.first flow) (b.start p.second flow))
        (Decides-and _ _ (P.Policy.tells p.first flow xs) (Q.Policy.tells p.second flow xs)) };

    fn begin(&self, flow: u8) -> (P::Mark, Q::Mark) {
        (self.first.begin(flow), self.second.begin(flow))
    }

    fn pass(&self, mark: (P::Mark, Q::Mark), switch: u8) -> (P::Mark, Q::Mark) {
        (
            self.first.pass(mark.0, switch),
            self.second.pass(mark.1, switch),
        )
    }

    fn allows(&self, mark: (P::Mark, Q::Mark)) -> bool {
        self.first.allows(mark.0) && self.second.allows(mark.1)
    }
}

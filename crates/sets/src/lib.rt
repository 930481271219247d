// Sets of switches 0 to 63 as numbers of 64 bits. A switch is any byte: one of 64 or above is in no set, and cannot be put into one. A set has no type of its own, since a batch of switches is told, lent and ordered as the number that it is: the sum of 2^s over its switches s.
#![tactic(auto)]

ghost use Rattle.std.specs.Prelude.{◌≡◌, ◌<◌, ◌⊎◌, ◌↔◌, length, IsTrue, MatchOption, ◌≢◌};
ghost use Rattle.std.specs.Iterator.{YieldsFirst, item_count};
ghost use Rattle.sets.specs.Sets.{InSet, Exactly, PartOf, Disjoint, SameMembers, MembersBelow, Empty, Lowest, members};

// How many switches a set can have.
pub const WIDTH: u8 = 64;

// Whether switch s is in the set.
pub fn has(set: u64, s: u8) -> bool
    ensures { IsTrue result ↔ InSet set s }
{
    s < WIDTH && (set >> s) & 1 == 1
}

// The set with switch s as well.
pub fn with(set: u64, s: u8) -> u64
    ensures { Exactly result (λ t. InSet set t ⊎ ((t ≡ s) × (s < 64))) }
{
    if s < WIDTH { set | (1u64 << s) } else { set }
}

// The set less switch s.
pub fn without(set: u64, s: u8) -> u64
    ensures { Exactly result (λ t. InSet set t × (t ≢ s)) }
{
    if s < WIDTH {
        let only = 1u64 << s;
        set & !only
    } else {
        set
    }
}

// The union of two sets.
pub fn joined(a: u64, b: u64) -> u64
    ensures { Exactly result (λ t. InSet a t ⊎ InSet b t) }
{
    a | b
}

// Whether each switch of a is in b.
#[tactic(auto, using(crate::proofs::Laws::part_test))]
pub fn part_of(a: u64, b: u64) -> bool
    ensures { IsTrue result ↔ PartOf a b }
{
    a & b == a
}

// Whether a and b have no switch in common.
#[tactic(auto, using(crate::proofs::Laws::apart_test))]
pub fn apart(a: u64, b: u64) -> bool
    ensures { IsTrue result ↔ Disjoint a b }
{
    a & b == 0
}

// Whether a and b have the same switches: equal numbers are equal sets. A test of its own, since `==` on numbers says nothing of members.
#[tactic(auto, using(crate::proofs::Laws::same_test))]
pub fn same(a: u64, b: u64) -> bool
    ensures { IsTrue result ↔ SameMembers a b }
{
    a == b
}

// Whether each switch of the set is below n.
pub fn below(set: u64, n: u8) -> bool
    ensures { IsTrue result ↔ MembersBelow n set }
{
    n >= WIDTH || set >> n == 0
}

// How many switches the set has.
#[tactic(auto, using(crate::proofs::Laws::count_members))]
pub fn count(set: u64) -> u8
    ensures { result ≡ length (members set) }
{
    // at most 64: no `From` narrows, and the proof shows that nothing is lost
    set.count_ones() as u8
}

// The lowest switch of the set, or none where it is empty.
pub fn lowest(set: u64) -> Option<u8>
    ensures { MatchOption result (Empty set) (λ s. Lowest set s) }
{
    if set == 0 {
        None
    } else {
        // below 64, so nothing is lost here either
        Some(set.trailing_zeros() as u8)
    }
}

// Goes over the switches of a set, rising: those that are left.
#[derive(Clone, Debug, PartialEq, Eq, Drop)]
pub struct Members {
    pub left: u64,
}

// The switches of the set one by one.
pub fn rising(set: u64) -> Members
    ensures { result.left ≡ set }
{
    Members { left: set }
}

impl Iterator for Members {
    type Item = u8;

    ghost next_gives = { YieldsFirst (λ it. members it.left) };

    ghost remaining = { item_count (λ it. members it.left) };

    fn next(&mut self) -> Option<u8> {
        let s = lowest(self.left)?;
        self.left = without(self.left, s);
        Some(s)
    }
}

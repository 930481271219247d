// What is wrong with a sheet: the kind of fault, the section and the place.
#![tactic(auto)]

ghost use Rattle.std.specs.Prelude.{◌≡◌, Some};
ghost use Rattle.faults.specs.Faults.{number_of, letter_of, fault_text};

use std::error::Error;
use std::fmt;

#[derive(Clone, Copy, Debug, PartialEq, Eq, Hash)]
pub enum FaultKind {
    EndsTooSoon = 1,
    SwitchCount = 2,
    LinkMask = 3,
    FlowCount = 4,
    FlowEnds = 5,
    SectionCount = 6,
    Hop = 7,
    NeededMask = 8,
    BytesFollow = 9,
    TooManyMovers = 10,
}

#[derive(Clone, Copy, Debug, PartialEq, Eq, Hash)]
pub enum Section {
    A,
    B,
    C,
    D,
    E,
}

#[derive(Clone, Copy, Debug, PartialEq, Eq, Hash)]
pub struct Fault {
    pub kind: FaultKind,
    pub section: Section,
    pub place: usize,
}

// The number under which a kind is told.
impl From<FaultKind> for u8 {
    ghost from_gives = { λ kind number. number ≡ number_of kind };

    fn from(kind: FaultKind) -> u8 {
        // the discriminants are the numbers
        kind as u8
    }
}

// The letter of a section.
impl From<Section> for char {
    ghost from_gives = { λ section letter. letter ≡ letter_of section };

    fn from(section: Section) -> char {
        match section {
            Section::A => 'A',
            Section::B => 'B',
            Section::C => 'C',
            Section::D => 'D',
            Section::E => 'E',
        }
    }
}

impl Fault {
    // The number under which the fault is told.
    pub fn number(&self) -> u8
        ensures { result ≡ number_of self.now.kind }
    {
        u8::from(self.kind)
    }

    // The letter of its section.
    pub fn letter(&self) -> char
        ensures { result ≡ letter_of self.now.section }
    {
        char::from(self.section)
    }
}

// Number, letter and place, parted by blanks.
impl fmt::Display for Fault {
    ghost output = { λ fault. Some (fault_text fault) };

    fn fmt<W: fmt::Write>(&self, f: &mut fmt::Formatter<W>) -> fmt::Result {
        let number = self.number();
        let letter = self.letter();
        let place = self.place;
        write!(f, "{number} {letter} {place}")
    }
}

impl Error for Fault {}

// A sheet, and the place of the next byte to read. Reading goes by layers, each of which tells the first fault of what it reads: byte, record, section, sheet.
ghost use Rattle.std.specs.Prelude.{◌≡◌, ◌≤◌, ℕ, List, [], length};
ghost use Rattle.sheet.specs.Layout.{switches, flows};

use std::marker::{Brand, PhantomData};

mod items;
mod sections;
pub mod whole;

// A name for one sheet, by which the types below say whose bytes and whose counts they hold. No value of it is ever made; whoever begins to read a sheet picks `bytes` in the proof of the call.
pub trait Sheet: Copy {
    ghost bytes: { List ℕ };
}

impl Sheet for Brand {
    ghost bytes = { [] };
}

// Reads the sheet S. It keeps the sheet and a place in it, and not the bytes that are left, since faults are told by their place, and rows are tested by links that were read before.
#[derive(Drop)]
pub struct Reader<'a, S: Sheet> {
    sheet: &'a [u8],
    at: usize,
    of: PhantomData<S>,
    ghost whole: { sheet.now ≡ S.bytes },
    ghost inside: { at ≤ length sheet.now },
}

// The number of the sheet's switches. Not one type with the number of flows: that type would need another to say which of the two it counts.
#[derive(Drop)]
pub struct Switches<S: Sheet> {
    count: u8,
    of: PhantomData<S>,
    ghost read: { count ≡ switches S.bytes },
    ghost few: { count ≤ 64 },
}

// The number of its flows.
#[derive(Drop)]
pub struct Flows<S: Sheet> {
    count: u8,
    of: PhantomData<S>,
    ghost read: { count ≡ flows S.bytes },
}

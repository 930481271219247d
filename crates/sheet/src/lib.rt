// Reads a sheet and judges it: its numbers, or its first fault.
#![tactic(auto)]

mod reader;
mod tested;

pub use reader::whole::{Numbers, read_numbers};

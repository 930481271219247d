// The tests of a sheet's single records, and the movers between two tables. Each function answers for every input.
#![tactic(auto)]

mod rules;
mod tables;

pub use rules::{links_fit, mask_at, mask_fits, row_fits, within};
pub use tables::Tables;

// Stored places of kinds 3 and 4, whose rows were exchanged: brought from the row that a kind had to the one that it has.
#![tactic(auto)]

mod place;
mod records;

pub use place::reproject_record;
pub use records::reproject_records;

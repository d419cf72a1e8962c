// The record of 16 bytes, converted from a lent piece into a lent piece.
#![tactic(auto)]

mod convert;
mod form;
mod layout;

pub use convert::{convert_record, converts};
pub use layout::{CENTRAL, FIRST, KIND, SECOND, SIZE, both_of_size, holds_place};

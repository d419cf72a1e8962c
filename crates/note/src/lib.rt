// The handover note: a session's two counts in bytes, behind a mark.
#![tactic(auto)]

mod form;
mod notes;

pub use form::{CAP, SIZE};
pub use notes::{read_note, write_note};

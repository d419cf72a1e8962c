// The C interface: forward and inverse on numbers, floats and records, positions as text, a session's handover note, and the salvage
// of a torn record file, by types that C has; `uldaseong_c` exports these functions from a static library. A function returns 0 where
// it did what was asked, and else the refusal's number; then no lent pair, no lent piece, no text, no note and no restored session has
// changed.
#![tactic(auto)]

mod counts;
mod floats;
mod notes;
mod numbers;
mod records;
mod status;
mod texts;
mod torn_files;

pub use floats::{uldaseong_forward_degrees, uldaseong_inverse_degrees};
pub use notes::{uldaseong_restore, uldaseong_save};
pub use numbers::{uldaseong_forward, uldaseong_inverse};
pub use records::{uldaseong_convert_record, uldaseong_feed};
pub use texts::{uldaseong_read_text, uldaseong_write_text};
pub use torn_files::uldaseong_salvage;

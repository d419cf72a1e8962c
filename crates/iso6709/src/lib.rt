// Positions as text by ISO 6709: degrees, minutes and seconds with two decimals, the latitude first, as +450000.00+0900000.00/.
#![tactic(auto)]

mod layout;
mod reading;
mod writing;

pub use reading::read_text;
pub use writing::write_text;

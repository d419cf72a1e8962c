// Forward and inverse on f64: degrees in place of hundredths of an arcsecond, and places as f64 (the "f64 door" of
// document 01).
#![tactic(auto)]

mod judging;
mod place;
mod position;
mod writing;

pub use place::forward_degrees;
pub use position::inverse_degrees;
pub use writing::Degrees;

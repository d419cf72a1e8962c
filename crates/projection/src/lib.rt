// Pseudocylindrical projections with equally spaced meridians, in whole numbers: forward from positions to places, and inverse.
#![tactic(auto)]

mod longitude;
mod place;
mod position;
mod scale;

pub use place::forward;
pub use position::inverse;

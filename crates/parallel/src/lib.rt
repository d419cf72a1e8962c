// The parallels of the projections: a half-width, and a y, for each kind at each latitude. Angles are in hundredths of an
// arcsecond, map units hundred-millionths of the sphere's radius.
#![tactic(auto)]

mod at;
mod kind;
mod parallel;
mod table;

pub use at::{at_latitude, at_y, half_width};
pub use kind::{Kind, is_kind};

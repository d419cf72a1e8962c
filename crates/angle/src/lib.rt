// An angle, and the numbers of its unit.
#![tactic(auto)]

mod sexagesimal;
mod within;

ghost use Rattle.std.specs.Prelude.{◌≡◌};
ghost use Rattle.whole.specs.Signed.{split_of, join_of};
ghost use Rattle.angle.specs.Angle.{outside as outside_of};

pub use sexagesimal::Sexagesimal;
use whole::Signed;
pub use within::{Latitude, Longitude, Within};

// A longitude or a latitude in whole hundredths of an arcsecond ("centiseconds" of document 01).
#[derive(Clone, Copy)]
pub struct Angle {
    pub count: Signed,
}

impl Angle {
    // A degree, a minute, a second, 180 degrees, 90 degrees, and 32 times 180 degrees.
    pub const PER_DEGREE: u32 = 360_000;

    pub const PER_MINUTE: u32 = Self::PER_DEGREE / 60;

    pub const PER_SECOND: u32 = Self::PER_MINUTE / 60;

    pub const N: u32 = 64_800_000;

    pub const H: u32 = Self::N / 2;

    pub const M: u32 = 32 * Self::N;

    // Whether the angle lies farther from 0 than a limit, either way.
    pub fn outside(self, limit: u32) -> bool
        ensures { result ≡ outside_of limit (join_of self.count) }
    {
        limit < self.count.size
    }
}

impl From<i32> for Angle {
    ghost from_gives = { λ centiseconds angle. angle.count ≡ split_of centiseconds };

    fn from(centiseconds: i32) -> Angle {
        Angle {
            count: Signed::from(centiseconds),
        }
    }
}

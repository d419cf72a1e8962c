// Longitudes and latitudes that lie on the globe.
ghost use Rattle.std.specs.Prelude.{◌≡◌, ◌≤◌, true, false, MatchResult};
ghost use Rattle.whole.specs.Signed.{join_of};
ghost use Rattle.angle.specs.Angle.{N, outside as outside_of};

use super::Angle;
use whole::Signed;

// An angle no farther from 0 than a limit, either way.
#[derive(Clone, Copy)]
pub struct Within<const LIMIT: u32> {
    pub count: Signed,
    ghost in_range: { count.size ≤ LIMIT },
}

pub type Longitude = Within<{ Angle::N }>;

pub type Latitude = Within<{ Angle::H }>;

impl Angle {
    // The angle, if it is within a limit; else this refusal.
    pub fn within<const LIMIT: u32, E: Drop>(self, refusal: E) -> Result<Within<LIMIT>, E>
        ensures { MatchResult result (λ angle. (outside_of LIMIT (join_of self.count) ≡ false) × (angle.count ≡ self.count)) (λ e. (outside_of LIMIT (join_of self.count) ≡ true) × (e ≡ refusal)) }
    {
        if self.outside(LIMIT) {
            Err(refusal)
        } else {
            Ok(Within { count: self.count })
        }
    }
}

impl From<Longitude> for i32 {
    ghost from_gives = { λ longitude z. z ≡ join_of longitude.count };

    fn from(longitude: Longitude) -> i32 {
        i64::from(longitude.count) as i32
    }
}

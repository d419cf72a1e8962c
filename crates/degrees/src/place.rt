// Forward on floats: judged here as floats, and answered as the numbers read are.
ghost use Rattle.std.specs.Prelude.{◌≡◌};
ghost use Rattle.refusal.specs.Number.{meaning};
ghost use Rattle.degrees.specs.Answer.{forward_of};

use super::judging::all_finite;
use super::writing::Degrees;
use parallel::Kind;
use projection::forward;
use reading::{centiseconds, outside};
use refusal::Refusal;

// The place at a position in degrees, x and y in map units; or the first refusal of 1, 2, 3, 4 and 5.
#[tactic(auto, using(crate::proofs::Numbers::answers), unfolding(crate::specs::Answer::forward_of, refusal::specs::Outcome::unless, crate::specs::Writing::units_of))]
pub fn forward_degrees(kind: u8, central: f64, at: Degrees) -> Result<(f64, f64), Refusal>
    ensures { meaning result ≡ forward_of kind central at.longitude at.latitude }
{
    let Degrees {
        longitude,
        latitude,
    } = at;
    Kind::try_from(kind)?;
    if !all_finite(central, longitude, latitude) {
        return Err(Refusal::Float);
    }
    if outside(central, 180.0) {
        return Err(Refusal::Central);
    }
    if outside(longitude, 180.0) {
        return Err(Refusal::Longitude);
    }
    if outside(latitude, 90.0) {
        return Err(Refusal::Latitude);
    }
    let (x, y) = forward(
        kind,
        centiseconds(central),
        centiseconds(longitude),
        centiseconds(latitude),
    )?;
    Ok((f64::from(x), f64::from(y)))
}

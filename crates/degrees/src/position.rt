// Inverse on floats: judged here as floats, and answered as the numbers read are.
ghost use Rattle.std.specs.Prelude.{◌≡◌};
ghost use Rattle.refusal.specs.Outcome.{on_given};
ghost use Rattle.refusal.specs.Number.{meaning};
ghost use Rattle.degrees.specs.Answer.{pair_of, inverse_of};

use super::judging::all_finite;
use super::writing::Degrees;
use parallel::Kind;
use projection::inverse;
use reading::{centiseconds, outside, units};
use refusal::Refusal;

// The position in degrees at a place; or the first refusal of 1, 2, 3, 6, 18, 7 and 17.
#[tactic(auto, using(crate::proofs::Numbers::answers), unfolding(crate::specs::Answer::inverse_of, refusal::specs::Outcome::unless))]
pub fn inverse_degrees(kind: u8, central: f64, x: f64, y: f64) -> Result<Degrees, Refusal>
    ensures { on_given pair_of (meaning result) ≡ inverse_of kind central x y }
{
    Kind::try_from(kind)?;
    if !all_finite(central, x, y) {
        return Err(Refusal::Float);
    }
    if outside(central, 180.0) {
        return Err(Refusal::Central);
    }
    let (longitude, latitude) = inverse(kind, centiseconds(central), units(x), units(y))?;
    Ok(Degrees::from_centiseconds(longitude, latitude))
}

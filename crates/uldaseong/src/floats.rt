// Forward and inverse on f64, angles in degrees.
ghost use Rattle.std.specs.Prelude.{◌≡◌};
ghost use Rattle.degrees.specs.Answer.{forward_of, inverse_of};
ghost use Rattle.uldaseong.specs.Status.{status_of, pair_after};

use super::status::hand_out;
use degrees::{Degrees, forward_degrees, inverse_degrees};

pub fn uldaseong_forward_degrees(
    kind: u8,
    central: f64,
    longitude: f64,
    latitude: f64,
    place: &mut [f64; 2],
) -> u8
    ensures value { result ≡ status_of (forward_of kind central longitude latitude) }
    ensures place_after { place.new ≡ pair_after place.old (forward_of kind central longitude latitude) }
{
    let position = Degrees {
        longitude,
        latitude,
    };
    hand_out(forward_degrees(kind, central, position), place)
}

pub fn uldaseong_inverse_degrees(
    kind: u8,
    central: f64,
    x: f64,
    y: f64,
    position: &mut [f64; 2],
) -> u8
    ensures value { result ≡ status_of (inverse_of kind central x y) }
    ensures position_after { position.new ≡ pair_after position.old (inverse_of kind central x y) }
{
    let answer = inverse_degrees(kind, central, x, y);
    hand_out(answer.map(|at| (at.longitude, at.latitude)), position)
}

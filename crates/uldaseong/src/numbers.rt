// Forward and inverse on whole numbers.
ghost use Rattle.std.specs.Prelude.{◌≡◌};
ghost use Rattle.projection.specs.Answer.{forward_of, inverse_of};
ghost use Rattle.uldaseong.specs.Status.{status_of, pair_after};

use super::status::hand_out;
use projection::{forward, inverse};

pub fn uldaseong_forward(
    kind: u8,
    central: i32,
    longitude: i32,
    latitude: i32,
    place: &mut [i32; 2],
) -> u8
    ensures value { result ≡ status_of (forward_of kind central longitude latitude) }
    ensures place_after { place.new ≡ pair_after place.old (forward_of kind central longitude latitude) }
{
    hand_out(forward(kind, central, longitude, latitude), place)
}

pub fn uldaseong_inverse(kind: u8, central: i32, x: i32, y: i32, position: &mut [i32; 2]) -> u8
    ensures value { result ≡ status_of (inverse_of kind central x y) }
    ensures position_after { position.new ≡ pair_after position.old (inverse_of kind central x y) }
{
    hand_out(inverse(kind, central, x, y), position)
}

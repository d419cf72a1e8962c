// Forward and inverse on f64, angles in degrees.
ghost use Rattle.std.specs.Prelude.{◌≡◌};
ghost use Rattle.degrees.specs.Answer.{forward_of, inverse_of};
ghost use Rattle.uldaseong.specs.Status.{status_of, pair_after};

#[unsafe(no_mangle)]
pub extern "C" fn uldaseong_forward_degrees(
    kind: u8,
    central: f64,
    longitude: f64,
    latitude: f64,
    place: &mut [f64; 2],
) -> u8
    ensures value { result ≡ status_of (forward_of kind central longitude latitude) }
    ensures place_after { place.new ≡ pair_after place.old (forward_of kind central longitude latitude) }
{
    uldaseong::uldaseong_forward_degrees(kind, central, longitude, latitude, place)
}

#[unsafe(no_mangle)]
pub extern "C" fn uldaseong_inverse_degrees(
    kind: u8,
    central: f64,
    x: f64,
    y: f64,
    position: &mut [f64; 2],
) -> u8
    ensures value { result ≡ status_of (inverse_of kind central x y) }
    ensures position_after { position.new ≡ pair_after position.old (inverse_of kind central x y) }
{
    uldaseong::uldaseong_inverse_degrees(kind, central, x, y, position)
}

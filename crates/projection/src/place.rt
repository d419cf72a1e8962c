// Forward: the place of a position.
ghost use Rattle.std.specs.Prelude.{◌≡◌, ◌*◌, ◌<◌};
ghost use Rattle.whole.specs.Signed.{join_of};
ghost use Rattle.angle.specs.Angle.{N};
ghost use Rattle.projection.specs.Longitude.{difference_of};
ghost use Rattle.projection.specs.Forward.{x_of};
ghost use Rattle.refusal.specs.Number.{meaning};
ghost use Rattle.projection.specs.Answer.{forward_of};

use super::longitude::difference;
use super::scale::x_at;
use angle::{Angle, Longitude};
use parallel::Kind;
use refusal::Refusal;

// The place at a position, angles in hundredths of an arcsecond; or the first refusal of 1, 3, 4 and 5.
pub fn forward(kind: u8, central: i32, longitude: i32, latitude: i32) -> Result<(i32, i32), Refusal>
    ensures { meaning result ≡ forward_of kind central longitude latitude }
{
    let kind = Kind::try_from(kind)?;
    let central: Longitude = Angle::from(central).within(Refusal::Central)?;
    let longitude: Longitude = Angle::from(longitude).within(Refusal::Longitude)?;
    let (w, y) = kind.at_latitude(latitude)?;
    Ok((x_on(w, central, longitude), y))
}

// x at a longitude, on a parallel of half-width w.
fn x_on(w: u32, central: Longitude, longitude: Longitude) -> i32
    requires { w < 5 * N }
    ensures { result ≡ x_of w (difference_of (join_of central.count) (join_of longitude.count)) }
{
    i64::from(x_at(w, difference(central, longitude))) as i32
}

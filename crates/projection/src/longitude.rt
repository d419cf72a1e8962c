// Differences and sums of longitudes, brought between -N and N.
ghost use Rattle.std.specs.Prelude.{◌≡◌, ◌*◌, ◌≤◌, pos, ◌+ℤ◌, ◌-ℤ◌};
ghost use Rattle.whole.specs.Signed.{with_sign, join_of};
ghost use Rattle.angle.specs.Angle.{N};
ghost use Rattle.projection.specs.Longitude.{wrap, difference_of};

use angle::{Angle, Longitude};
use whole::Signed;

// A longitude less the central meridian, brought between -N and N.
#[tactic(auto, using(whole::proofs::Signs::sign_turned))]
pub(crate) fn difference(central: Longitude, longitude: Longitude) -> Longitude
    ensures { join_of result.count ≡ difference_of (join_of central.count) (join_of longitude.count) }
{
    let turned = Longitude {
        count: Signed {
            negative: !central.count.negative,
            size: central.count.size,
        },
    };
    sum(longitude, turned)
}

// Two longitudes together, brought between -N and N.
pub(crate) fn sum(first: Longitude, second: Longitude) -> Longitude
    ensures { join_of result.count ≡ wrap (join_of first.count +ℤ join_of second.count) }
{
    less(
        first.count.plus() + second.count.plus(),
        first.count.minus() + second.count.minus(),
    )
}

// East less west, brought between -N and N.
fn less(east: u64, west: u64) -> Longitude
    requires { (east ≤ 2 * N) × (west ≤ 2 * N) }
    ensures { join_of result.count ≡ wrap (pos east -ℤ pos west) }
{
    wrapped(east < west, east.abs_diff(west) as u32)
}

// A number by its sign and size, brought between -N and N: past N, a turn back leads to the other side of 0.
#[tactic(auto, using(crate::proofs::Longitudes::wrap_near, crate::proofs::Longitudes::wrap_far, whole::proofs::Signs::nat_abs_sign))]
fn wrapped(negative: bool, size: u32) -> Longitude
    requires { size ≤ 2 * N }
    ensures { join_of result.count ≡ wrap (with_sign negative size) }
{
    if size <= Angle::N {
        Longitude {
            count: Signed { negative, size },
        }
    } else {
        Longitude {
            count: Signed {
                negative: !negative,
                size: 2 * Angle::N - size,
            },
        }
    }
}

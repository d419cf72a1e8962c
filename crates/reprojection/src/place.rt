// The place of a record, brought to the new row of its kind.
ghost use Rattle.std.specs.Prelude.{◌≡◌, true, false, length, MatchOption};
ghost use Rattle.refusal.specs.Number.{meaning};
ghost use Rattle.record.specs.Record.{size, kind_in};
ghost use Rattle.reprojection.specs.Retired.{is_retired};
ghost use Rattle.reprojection.specs.Inside.{Formerly};
ghost use Rattle.reprojection.specs.Reprojected.{place_in, reprojected};

use little_endian::{get, put};
use parallel::Kind;
use projection::{forward, inverse};
use record::{CENTRAL, FIRST, KIND, SECOND, holds_place};
use refusal::Refusal;

const PUTNINS_P1: u8 = Kind::PutninsP1 as u8;

const WAGNER_VI: u8 = Kind::WagnerVI as u8;

// Brings the place of a record of kind 3 or 4 to its new row. What is no such record, or a place that the old row refuses, stays as
// it is.
#[tactic(auto, unfolding(crate::specs::Reprojected::reprojected))]
pub fn reproject_record(bytes: &mut [u8])
    ensures { bytes.new ≡ reprojected bytes.old }
{
    if !holds_place(bytes) {
        return;
    }
    if let Some(other) = exchanged(bytes[KIND])
        && let Ok((x, y)) = new_place(bytes, other)
    {
        put(bytes, FIRST, x);
        put(bytes, SECOND, y);
    }
}

// The kind that now has the row that kind 3 or 4 had, by numbers, as `forward` and `inverse` take them. The two rows differ in KX, a and
// b alone, which were exchanged.
#[tactic(auto, using(crate::proofs::Places::formerly_3, crate::proofs::Places::formerly_4))]
fn exchanged(kind: u8) -> Option<u8>
    ensures { MatchOption result (is_retired kind ≡ false) (λ other. Formerly kind other × (is_retired kind ≡ true)) }
{
    match kind {
        PUTNINS_P1 => Some(WAGNER_VI),
        WAGNER_VI => Some(PUTNINS_P1),
        _ => None,
    }
}

// The place of a record, sent back under the row of `other` and forward under that of its kind.
fn new_place(bytes: &[u8], other: u8) -> Result<(i32, i32), Refusal>
    requires { (length bytes.now ≡ size) × Formerly (kind_in bytes.now) other }
    ensures { meaning result ≡ place_in bytes.now }
{
    let central = get(bytes, CENTRAL);
    let (longitude, latitude) = inverse(other, central, get(bytes, FIRST), get(bytes, SECOND))?;
    forward(bytes[KIND], central, longitude, latitude)
}

// A position's text.
ghost use Rattle.std.specs.Prelude.{◌≡◌, ◌+◌, ◌≤◌, length};
ghost use Rattle.digits.specs.Put.{Put};
ghost use Rattle.angle.specs.Sexagesimal.{sexagesimal_of};
ghost use Rattle.iso6709.specs.Part.{sign_of, part_of};
ghost use Rattle.shape.specs.Shape.{size};
ghost use Rattle.refusal.specs.Outcome.{or_else};
ghost use Rattle.refusal.specs.Number.{meaning, done};
ghost use Rattle.iso6709.specs.Answer.{both_of, write_of};

use super::layout::{END, LATITUDE, LONGITUDE, Part};
use angle::{Angle, Latitude, Longitude, Sexagesimal};
use digits::put_digits;
use refusal::Refusal;
use shape::SIZE;
use whole::Signed;

// Writes a position's text; or answers the first refusal of 12, 5 and 4, and leaves `text` as it is.
#[tactic(auto, unfolding(crate::specs::Answer::write_of, refusal::specs::Outcome::unless))]
pub fn write_text(longitude: i32, latitude: i32, text: &mut [u8]) -> Result<(), Refusal>
    ensures value { meaning result ≡ done (write_of longitude latitude (length text.old)) }
    ensures text_after { text.new ≡ or_else text.old (write_of longitude latitude (length text.old)) }
{
    if text.len() != SIZE {
        return Err(Refusal::TextLength);
    }
    let latitude: Latitude = Angle::from(latitude).within(Refusal::Latitude)?;
    let longitude: Longitude = Angle::from(longitude).within(Refusal::Longitude)?;
    put_both(text, longitude, latitude);
    Ok(())
}

// Puts both angles into a text, the latitude first.
#[tactic(auto, using(crate::proofs::Parts::both_put))]
fn put_both(text: &mut [u8], longitude: Longitude, latitude: Latitude)
    requires { length text.old ≡ size }
    ensures { text.new ≡ both_of (sexagesimal_of longitude.count) (sexagesimal_of latitude.count) }
{
    put_part(text, LATITUDE, latitude.count);
    put_part(text, LONGITUDE, longitude.count);
    text[END] = b'/';
}

// Puts an angle into a part of a text.
fn put_part(text: &mut [u8], part: Part, count: Signed)
    requires { part.at + 1 + part.width + 7 ≤ length text.old }
    ensures { Put text.old part.at (part_of part.width (sexagesimal_of count)) (part.at + 1 + part.width + 7) text.new }
{
    let angle = Sexagesimal::from(Angle { count });
    let minutes = part.at + 1 + part.width;
    text[part.at] = sign(angle.negative);
    put_digits(&mut text[part.at + 1..minutes], u64::from(angle.degrees));
    put_digits(&mut text[minutes..minutes + 2], u64::from(angle.minutes));
    put_digits(
        &mut text[minutes + 2..minutes + 4],
        u64::from(angle.seconds),
    );
    text[minutes + 4] = b'.';
    put_digits(
        &mut text[minutes + 5..minutes + 7],
        u64::from(angle.hundredths),
    );
}

// No `From`: one from bool to u8 is there already.
fn sign(negative: bool) -> u8
    ensures { result ≡ sign_of negative }
{
    if negative { b'-' } else { b'+' }
}

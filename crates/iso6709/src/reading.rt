// A text's position.
ghost use Rattle.std.specs.Prelude.{◌≡◌, ◌≤◌, length};
ghost use Rattle.digits.specs.Digits.{AllDigits, value_of};
ghost use Rattle.refusal.specs.Number.{meaning};
ghost use Rattle.angle.specs.Sexagesimal.{signed_of};
ghost use Rattle.iso6709.specs.Part.{part_at};
ghost use Rattle.iso6709.specs.Numbers.{HasDigits, Narrow};
ghost use Rattle.iso6709.specs.Refusal.{is_minus_zero};
ghost use Rattle.iso6709.specs.Answer.{position_of, angles_of, read_of};

use super::layout::{LATITUDE, LONGITUDE, Part};
use angle::{Angle, Latitude, Longitude, Sexagesimal};
use refusal::Refusal;
use shape::{SIZE, stand};
use whole::Signed;

// The position of a text, longitude and latitude; or the first refusal of 12, 13, 14, 15, 5 and 4.
#[tactic(auto, using(crate::proofs::Numbers::has_latitude, crate::proofs::Numbers::has_longitude, crate::proofs::Numbers::narrow), unfolding(crate::specs::Answer::read_of, crate::specs::Answer::angles_of, refusal::specs::Outcome::unless))]
pub fn read_text(text: &[u8]) -> Result<(i32, i32), Refusal>
    ensures { meaning result ≡ read_of text.now }
{
    if text.len() != SIZE {
        return Err(Refusal::TextLength);
    }
    if !stand(text) {
        return Err(Refusal::TextShape);
    }
    angles(part_at(text, LONGITUDE), part_at(text, LATITUDE))
}

// The position of two angles as they are written; or the first refusal of 14, 15, 5 and 4.
#[tactic(auto, unfolding(crate::specs::Answer::angles_of, crate::specs::Answer::position_of, refusal::specs::Outcome::unless))]
fn angles(longitude: Sexagesimal, latitude: Sexagesimal) -> Result<(i32, i32), Refusal>
    requires { Narrow longitude × Narrow latitude }
    ensures { meaning result ≡ angles_of longitude latitude }
{
    if !(latitude.below_sixty() && longitude.below_sixty()) {
        return Err(Refusal::Sixties);
    }
    position(signed(longitude), signed(latitude))
}

// The position of two angles by sign and size; or the first refusal of 15, 5 and 4.
#[tactic(auto, using(whole::proofs::Signs::join_back), unfolding(crate::specs::Answer::position_of, refusal::specs::Outcome::unless))]
fn position(longitude: Signed, latitude: Signed) -> Result<(i32, i32), Refusal>
    ensures { meaning result ≡ position_of longitude latitude }
{
    if is_minus_zero(latitude) || is_minus_zero(longitude) {
        return Err(Refusal::MinusZero);
    }
    let latitude: Latitude = Angle { count: latitude }.within(Refusal::Latitude)?;
    let longitude: Longitude = Angle { count: longitude }.within(Refusal::Longitude)?;
    Ok((
        i64::from(longitude.count) as i32,
        i64::from(latitude.count) as i32,
    ))
}

// An angle by sign and size. No `From`, since it asks for numbers that fit.
fn signed(angle: Sexagesimal) -> Signed
    requires { Narrow angle }
    ensures { result ≡ signed_of angle }
{
    Signed {
        negative: angle.negative,
        size: angle.size() as u32,
    }
}

fn is_minus_zero(angle: Signed) -> bool
    ensures { result ≡ is_minus_zero angle }
{
    angle.negative && angle.size == 0
}

// The angle in a part of a text.
#[tactic(auto, unfolding(crate::specs::Part::part_at))]
fn part_at(text: &[u8], part: Part) -> Sexagesimal
    requires { HasDigits text.now part.at part.width }
    ensures { result ≡ part_at text.now part.at part.width }
{
    let minutes = part.at + 1 + part.width;
    Sexagesimal {
        negative: text[part.at] == b'-',
        degrees: number(&text[part.at + 1..minutes]),
        minutes: number(&text[minutes..minutes + 2]),
        seconds: number(&text[minutes + 2..minutes + 4]),
        hundredths: number(&text[minutes + 5..minutes + 7]),
    }
}

// The number that digits stand for.
#[tactic(auto, using(crate::proofs::Numbers::number_next, crate::proofs::Numbers::number_small, crate::proofs::Numbers::number_done))]
fn number(digits: &[u8]) -> u32
    requires { AllDigits digits.now × (length digits.now ≤ 3) }
    ensures { result ≡ value_of digits.now }
{
    let mut value = 0;
    for digit in digits {
        value = value * 10 + u32::from(digit - b'0');
    }
    value
}

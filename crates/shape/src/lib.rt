// The shape of a position's text by ISO 6709, as +450000.00+0900000.00/: what may stand at each place.
#![tactic(auto)]

ghost use Rattle.std.specs.Prelude.{◌≡◌, get_or};
ghost use Rattle.std.specs.List.{list_all, enumerate_from};
ghost use Rattle.shape.specs.Shape.{Digit, is_sign, may_stand, shape, stand as stand_of};

use digits::is_digit;

// The length of a text.
pub const SIZE: usize = 22;

// Whether a text is of this length and each of its bytes may stand at its place.
#[tactic(auto, using(crate::proofs::Standing::stands_each, crate::proofs::Standing::not_long))]
pub fn stand(text: &[u8]) -> bool
    ensures { result ≡ stand_of shape text.now }
{
    text.len() == SIZE && each_may_stand(text)
}

// Whether each byte may stand at its place, whatever the length.
fn each_may_stand(text: &[u8]) -> bool
    ensures { result ≡ list_all (λ p. may_stand (get_or shape p.0 Digit) p.1) (enumerate_from 0 text.now) }
{
    text.iter().enumerate().all(|(i, byte)| may_stand(i, *byte))
}

// Signs, points and the slash stand at places of their own, and digits at all others: a table would name each of the 22.
#[tactic(auto, using(crate::proofs::Standing::digit_place), unfolding(crate::specs::Shape::shape))]
fn may_stand(i: usize, byte: u8) -> bool
    ensures { result ≡ may_stand (get_or shape i Digit) byte }
{
    match i {
        0 | 10 => is_sign(byte),
        7 | 18 => byte == b'.',
        21 => byte == b'/',
        _ => is_digit(byte),
    }
}

fn is_sign(byte: u8) -> bool
    ensures { result ≡ is_sign byte }
{
    byte == b'+' || byte == b'-'
}

// Decimal digits in ASCII, put into a lent piece.
#![tactic(auto)]

ghost use Rattle.std.specs.Prelude.{◌≡◌, length};
ghost use Rattle.digits.specs.Digits.{is_digit, last_digits};

// Fills a piece with the last digits of n, with zeros in front where it has fewer.
#[tactic(auto, using(crate::proofs::Values::digit_put), unfolding(crate::specs::Digits::last_digits))]
pub fn put_digits(piece: &mut [u8], n: u64)
    ensures { piece.new ≡ last_digits (length piece.old) n }
{
    let mut rest = n;
    // by places: through `iter_mut().rev()` the goal `returns` stays open
    for i in (0..piece.len()).rev() {
        piece[i] = b'0' + (rest % 10) as u8;
        rest /= 10;
    }
}

pub fn is_digit(byte: u8) -> bool
    ensures { result ≡ is_digit byte }
{
    byte.is_ascii_digit()
}

// Numbers as decimal text. A line that `write!` puts takes twice the time, so digits are put here.
ghost use Rattle.std.specs.Prelude.{◌≡◌, ◌+◌, ◌≤◌, length};
ghost use Rattle.digits.specs.Put.{Put};
ghost use Rattle.lines.specs.Decimal.{decimal_of, number_text};

use super::buffer::put_at;
use digits::put_digits;
use whole::Signed;

// Puts a number of 32 bits at a place, and answers the place behind it: 11 bytes at most.
#[tactic(auto, using(crate::proofs::Decimals::decimal_le_32))]
pub(crate) fn put_number(text: &mut [u8], at: usize, z: i32) -> usize
    requires { at + 11 ≤ length text.old }
    ensures put { Put text.old at (number_text z) result text.new }
    ensures upper_bound { result ≤ at + 11 }
{
    let number = Signed::from(z);
    let size = u64::from(number.size);
    if number.negative {
        let next = put_at(text, at, b"-");
        put_decimal(text, next, size)
    } else {
        put_decimal(text, at, size)
    }
}

// Puts a whole number at a place, and answers the place behind it.
#[tactic(auto, using(crate::proofs::Decimals::put_decimal_part))]
pub(crate) fn put_decimal(text: &mut [u8], at: usize, n: u64) -> usize
    requires { at + length (decimal_of n) ≤ length text.old }
    ensures { Put text.old at (decimal_of n) result text.new }
{
    let end = at + width(n);
    put_digits(&mut text[at..end], n);
    end
}

// How many digits n has.
#[tactic(auto, using(crate::proofs::Decimals::digits_counted))]
fn width(n: u64) -> usize
    ensures { result ≡ length (decimal_of n) }
{
    n.checked_ilog10().unwrap_or(0) as usize + 1
}

// Numbers in bytes, the least byte first: a signed 32-bit one at a place of a lent piece, and a whole one in as many bytes as a piece has.
#![tactic(auto)]

ghost use Rattle.std.specs.Prelude.{◌≡◌};
ghost use Rattle.little_endian.specs.Number.{has_four, number_at, with_number};

mod whole_numbers;

pub use whole_numbers::{get_whole, put_whole};

// The number at a place; 0 where four bytes do not stand there.
#[tactic(auto, unfolding(crate::specs::Number::number_at))]
pub fn get(bytes: &[u8], at: usize) -> i32
    ensures { result ≡ number_at bytes.now at }
{
    bytes
        .get(at..)
        .and_then(|rest| rest.first_chunk())
        .map_or(0, |four| i32::from_le_bytes(*four))
}

// Puts a number at a place and answers true; where four bytes do not stand there, nothing is written. A `bool`, as README has it.
#[tactic(auto, unfolding(crate::specs::Number::with_number, crate::specs::Number::bytes_of))]
pub fn put(bytes: &mut [u8], at: usize, z: i32) -> bool
    ensures value { result ≡ has_four bytes.old at }
    ensures bytes_after { bytes.new ≡ with_number bytes.old at z }
{
    if bytes.len().checked_sub(4).is_none_or(|last| last < at) {
        return false;
    }
    bytes[at..at + 4].copy_from_slice(&z.to_le_bytes());
    true
}

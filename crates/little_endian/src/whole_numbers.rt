// A whole number in as many bytes as a piece has, the least byte first.
ghost use Rattle.std.specs.Prelude.{◌≡◌, length, take};
ghost use Rattle.little_endian.specs.Whole.{whole_of, least_bytes};

// The number that the bytes stand for: of more than 8, that of the first 8.
#[tactic(auto, using(crate::proofs::Wholes::before_byte, crate::proofs::Wholes::before_none, crate::proofs::Wholes::le_before, crate::proofs::Wholes::whole_first))]
pub fn get_whole(bytes: &[u8]) -> u64
    ensures { result ≡ whole_of (take 8 bytes.now) }
{
    let count = bytes.len().min(8);
    let mut value = 0;
    for byte in bytes[..count].iter().rev() {
        value = value * 256 + u64::from(*byte);
    }
    value
}

// Fills a piece with the least bytes of n, with zeros behind where it has fewer.
#[tactic(auto, using(crate::proofs::Wholes::one_written))]
pub fn put_whole(piece: &mut [u8], n: u64)
    ensures { piece.new ≡ least_bytes (length piece.old) n }
{
    let mut rest = n;
    for byte in piece.iter_mut() {
        *byte = (rest % 256) as u8;
        rest /= 256;
    }
}

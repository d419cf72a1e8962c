// Bytes put into a buffer.
ghost use Rattle.std.specs.Prelude.{◌+◌, ◌≤◌, leb, length};
ghost use Rattle.digits.specs.Put.{Put};
ghost use Rattle.lines.specs.Buffer.{Placed};

// Puts bytes at the front of the text, and answers how many; nothing where the text is shorter.
#[tactic(auto, using(crate::proofs::Buffers::too_short, crate::proofs::Buffers::copied))]
pub fn put_bytes(bytes: &[u8], text: &mut [u8]) -> Option<usize>
    ensures { Placed (leb (length bytes.now) (length text.old)) bytes.now text.old result text.new }
{
    if text.len() < bytes.len() {
        return None;
    }
    text[..bytes.len()].copy_from_slice(bytes);
    Some(bytes.len())
}

// Puts bytes at a place, and answers the place behind them. Text and place are no struct: each method of one that holds a lent text
// would have a clause more, that it still holds the same.
#[tactic(auto, using(crate::proofs::Buffers::put_part))]
pub(crate) fn put_at(text: &mut [u8], at: usize, bytes: &[u8]) -> usize
    requires { at + length bytes.now ≤ length text.old }
    ensures { Put text.old at bytes.now result text.new }
{
    at + put_bytes(bytes, &mut text[at..]).unwrap()
}

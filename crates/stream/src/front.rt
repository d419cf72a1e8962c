// Bytes brought to the front of a buffer.
ghost use Rattle.std.specs.Prelude.{◌≡◌, ◌≤◌, length, drop};
ghost use Rattle.digits.specs.Put.{put_front};

// Moves the bytes from a place on to the front.
#[tactic(auto, using(crate::proofs::Fronts::copied, crate::proofs::Fronts::unmoved))]
pub(crate) fn move_to_front(bytes: &mut [u8], from: usize)
    requires { from ≤ length bytes.old }
    ensures { bytes.new ≡ put_front bytes.old (drop from bytes.old) }
{
    // bytes that stand there already are not moved again with each read
    if from > 0 {
        bytes.copy_within(from.., 0);
    }
}

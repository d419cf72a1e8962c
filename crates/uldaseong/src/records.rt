// Records converted, by themselves and fed to a session.
ghost use Rattle.std.specs.Prelude.{◌≡◌, length};
ghost use Rattle.record.specs.Answer.{convert_of, output_after};
ghost use Rattle.session.specs.Session.{feed_of, session_after};
ghost use Rattle.uldaseong.specs.Status.{status_of, session_in, counts_of};

use super::counts::{counts_of, session_in};
use super::status::status;
use record::convert_record;

pub fn uldaseong_convert_record(input: &[u8], output: &mut [u8]) -> u8
    ensures value { result ≡ status_of (convert_of input.now (length output.old)) }
    ensures output_after { output.new ≡ output_after input.now output.old (convert_of input.now (length output.old)) }
{
    status(convert_record(input, output))
}

// The session is lent as its two counts, moved and then refused.
pub fn uldaseong_feed(counts: &mut [u64; 2], input: &[u8], output: &mut [u8]) -> u8
    ensures value { result ≡ status_of (feed_of (session_in counts.old) input.now (length output.old)) }
    ensures counts_after { counts.new ≡ counts_of (session_after (session_in counts.old) (feed_of (session_in counts.old) input.now (length output.old))) }
    ensures output_after { output.new ≡ output_after input.now output.old (feed_of (session_in counts.old) input.now (length output.old)) }
{
    let fed = session_in(*counts).feed(input, output);
    *counts = counts_of(fed.session);
    status(fed.answer)
}

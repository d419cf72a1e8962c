// A session saved as a handover note, and restored from one. The session is lent as its two counts, moved and then refused.
ghost use Rattle.std.specs.Prelude.{◌≡◌, length};
ghost use Rattle.refusal.specs.Outcome.{or_else};
ghost use Rattle.session.specs.Handover.{save_of, restore_of};
ghost use Rattle.uldaseong.specs.Status.{status_of, session_in, counts_of};

use super::counts::{counts_of, session_in};
use super::status::status;

pub fn uldaseong_save(counts: &[u64; 2], note: &mut [u8]) -> u8
    ensures value { result ≡ status_of (save_of (session_in counts.now) (length note.old)) }
    ensures note_after { note.new ≡ or_else note.old (save_of (session_in counts.now) (length note.old)) }
{
    status(session_in(*counts).save(note))
}

pub fn uldaseong_restore(counts: &mut [u64; 2], note: &[u8]) -> u8
    ensures value { result ≡ status_of (restore_of note.now) }
    ensures counts_after { counts.new ≡ counts_of (or_else (session_in counts.old) (restore_of note.now)) }
{
    let restored = session_in(*counts).restore(note);
    *counts = counts_of(restored.session);
    status(restored.answer)
}

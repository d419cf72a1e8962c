// A session as its caller keeps it: two counts, moved and then refused.
// Two functions and no `From`: neither `Session` nor an array is a type of this crate, so the impls would be orphans.
ghost use Rattle.std.specs.Prelude.{◌≡◌};
ghost use Rattle.uldaseong.specs.Status.{session_in, counts_of};

use session::Session;

// The session that is lent as these counts.
pub(crate) fn session_in(counts: [u64; 2]) -> Session
    ensures { result ≡ session_in counts }
{
    let [moved, refused] = counts;
    Session { moved, refused }
}

// The counts that a session is kept as.
pub(crate) fn counts_of(session: Session) -> [u64; 2]
    ensures { result ≡ counts_of session }
{
    [session.moved, session.refused]
}
